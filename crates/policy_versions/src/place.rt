//! A place for an instance, and who may fill or read it.
ghost use Rattle.std.specs.Prelude.{◌≡◌, ◌<◌, ◌≤◌, ◌↔◌, IfOk, IfErr, IfSome, IsSomeAnd, IsTrue, Some, None};
ghost use Rattle.policy_versions.specs.Turning.{IsUnread};
ghost use Rattle.policy_versions.specs.Places.{IsDeclared};
ghost use Rattle.policy_versions.specs.declared.instance.Instance.{Instance};

use crate::instance::Instance;
use crate::view::Origin;
use counted_slot::{Claim, Counted, Fits, MOST_READERS, ONE_READER, PRESENT};
use shfl_policy::Policy;

/// Which place it is.
#[derive(Drop)]
pub struct PlaceId {
    pub origin: Origin,
    pub index: u32,
}

impl Fits for Instance {
    type Tag = PlaceId;

    ghost use Rattle.policy_versions.specs.Places.{IsDeclared};

    ghost fits = { IsDeclared };
}

/// One of the eight places: an instance or none, with its word. The spare words behind it are as long as a cache line, so that whoever
/// counts at a place disturbs nobody at the next one.
#[derive(Drop)]
pub struct Place {
    pub counted: Counted<Option<Instance>>,
    spare: [u64; 8],
}

/// The right to fill a place, or none. No reader shares it.
pub struct Right<'a> {
    pub claim: Option<Claim<'a, Option<Instance>>>,
    pub ghost fills: { ∥ IfSome claim (λ c. c.right ≡ 2) ∥₁ },
}

/// A try to read that gained nothing: the word that was loaded, and the word that the exchange found, or the same where none was
/// tried.
#[derive(Clone, Copy)]
pub struct Unread {
    pub loaded: u64,
    pub word: u64,
}

/// The right to read a place.
pub struct Reading<'a> {
    pub claim: Claim<'a, Option<Instance>>,
    pub ghost reads: { claim.right ≡ 1 },
}

impl<'a> Right<'a> {
    /// No right yet.
    pub fn none() -> Right<'a>
        ensures { result.claim ≡ None }
    {
        Right { claim: None }
    }

    /// Gives up a right that was not gained.
    pub fn done(self)
        requires { self.claim ≡ None }
    {
        let Right { claim } = self;
        let None = claim else { unreachable!() };
    }
}

impl Place {
    /// An empty place.
    pub fn new(id: &PlaceId) -> Place
        ensures { result.counted ≡ id.now }
    {
        Place {
            counted: Counted::new(None, id),
            spare: [0; 8],
        }
    }

    /// One try to read: a load, and a compare and exchange where an instance stands there and one more reader fits.
    pub fn read<'a>(&'a self) -> Result<Reading<'a>, Unread>
        ensures reading { IfOk result (λ r. r.claim.tag ≡ self.now.counted) }
        ensures unread { IfErr result (λ u. IsUnread u.loaded u.word) }
    {
        let loaded = self.counted.load();
        if loaded % 4 != PRESENT || loaded % 0x1_0000_0000 / 4 >= MOST_READERS {
            return Err(Unread {
                loaded,
                word: loaded,
            });
        }
        let (word, claim) = self.counted.turn(loaded, loaded + ONE_READER);
        if word != loaded {
            claim.done();
            return Err(Unread { loaded, word });
        }
        Ok(Reading { claim })
    }
}

/// Fills the place with its right, and drops the instance that stood there.
pub fn fill(right: Right<'_>, instance: Instance)
    requires { IsSomeAnd right.claim (λ c. IsDeclared c.tag instance) }
{
    let Right { claim } = right;
    let Some(claim) = claim else { unreachable!() };
    let old = claim.put(Some(instance), PRESENT);
    drop(old);
}

impl<'a> Reading<'a> {
    /// What stands there.
    pub fn shown(&self) -> &Option<Instance>
        ensures value { Some result.now ≡ self.now.claim.value }
        ensures declared { IfSome result.now (IsDeclared self.now.claim.tag) }
    {
        self.claim.get()
    }

    /// Whether it is a copy of that declared policy. Every instance that was put there equals the policy that it names, so the
    /// two numbers tell.
    pub fn shows(&self, which: u32) -> bool
        ensures exact { IsTrue result ↔ (x : Instance) × (self.now.claim.value ≡ Some (Some x))
            × (x.which ≡ which) }
        ensures declared { IsTrue result → (x : Instance) × (self.now.claim.value ≡ Some (Some x))
            × (x.which ≡ which) × IsDeclared self.now.claim.tag x }
    {
        match self.shown() {
            Some(instance) => instance.which == which,
            None => false,
        }
    }

    pub fn leave(self) {
        let Reading { claim } = self;
        let _ = claim.leave();
    }
}
