//! A lock over plain words that is lawful between any two steps.
ghost use Rattle.std.specs.Prelude.{◌≡◌, ◌<◌, ◌≤◌, length, IfOk};
ghost use Rattle.shfl_core.specs.Runner.{opened};
ghost use Rattle.shfl_core.specs.Waiting.{MakesIdle, rules};
ghost use Rattle.shfl_line.specs.Line.{empty};
ghost use Rattle.shfl_line.specs.declared.events.Form.{Form};
ghost use Rattle.shfl_world.specs.LawfulLock.{IsLawfulLock, ShowsWellFormed, ShowsHeadline, ShowsItsWorld};
ghost use Rattle.shfl_world.specs.LawfulLock.{HasFewPasses, RoundsAreShort};
ghost use Rattle.shfl_world.specs.LawfulLock.{shown_by, terms_of};
ghost use Rattle.shfl_laws.specs.Moves.{terms};

use shfl_core::{PlainWorld, Waiter};
use shfl_line::{Attr, NoMemory};
use std::alloc::Global;
use std::marker::Model;

/// A lock whose words are plain numbers, with all its passes, 64 at most. Every value of the type is
/// lawful, whatever moves led to it.
#[derive(Drop)]
pub struct World<W: Waiter> {
    pub(crate) plain: PlainWorld<W>,
}

impl<W: Waiter> Model for World<W> {
    ghost use Rattle.shfl_core.specs.Runner.{Lock};
    ghost use Rattle.shfl_world.specs.LawfulLock.{IsLawfulWorld};

    ghost Value = { Lock };

    ghost view = { λ s. s.plain };

    ghost invariant = { λ s. IsLawfulWorld s.plain };
}

impl<W: Waiter> World<W> {
    /// A lock with a pass for each of these attributes; `make` makes the waiter of a pass.
    pub fn open<F: Fn(u32, Attr, u16) -> W>(
        alloc: Global,
        attrs: &[Attr],
        limit: u16,
        make: F,
    ) -> Result<World<W>, NoMemory>
        ghost form: { Form }
        requires some { 0 < length attrs.now }
        requires few { length attrs.now ≤ 64 }
        requires limited { (0 < limit) × (limit ≤ 1024) }
        requires callable { F.IsAlwaysCallable make }
        requires idle { MakesIdle W.meaning (λ p a w. F.post make p a limit w) (rules limit form) }
        ensures opened { IfOk result (λ w. w ≡ opened (rules limit form) attrs.now) }
        ensures shown { IfOk result (λ w. shown_by w ≡ empty (length attrs.now)) }
        ensures terms { IfOk result (λ w. terms_of w ≡ terms (rules limit form) attrs.now) }
    {
        let plain = PlainWorld::open(alloc, attrs, limit, make)?;
        Ok(World { plain })
    }

    /// How many passes there are.
    pub fn count(&self) -> usize
        ensures { result ≡ length self.now.world.passes }
    {
        self.plain.count()
    }

    /// What holds of every lock of this type; the call does nothing when it runs.
    pub fn is_lawful(&self)
        ensures lawful { IsLawfulLock self.now }
        ensures few { HasFewPasses self.now }
        ensures well_formed { ShowsWellFormed self.now }
        ensures headline { ShowsHeadline self.now }
        ensures world { ShowsItsWorld self.now }
        ensures rounds { RoundsAreShort self.now }
    {
        let _ = &self.plain;
    }
}
