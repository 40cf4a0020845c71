//! Names as calls say them, each put once where a few looks find it again.
ghost use Rattle.std.specs.Prelude.{◌≡◌, ◌<◌, ◌≤◌, ◌+◌, [], ◌∷◌, length, IfOk, MatchResult, IsTrue, map};
ghost use Rattle.name_order.specs.Places.{ArePutBehind, StandsAt};

use std::alloc::{AllocError, Global};
use std::marker::Model;

// A name counts as new after so many looks: names that somebody chose take no more of them.
const LOOKS: u32 = 16;

// A slot is a guess, that a name with such a sum may stand at a place; whoever asks compares the names. It has the place's lowest 17
// bits, and above them the sum's lowest 15.
const PLACE_BITS: u32 = 17;

const PLACES: u32 = 0x1_ffff;

// What an empty slot says.
const NOBODY: u32 = u32::MAX;

/// Names in the order in which they were first said. A name may stand at two places, where the looks didn't find it.
#[derive(Drop)]
pub struct Gathered<'a> {
    names: Vec<&'a [u8]>,
    slots: Vec<u32>,
}

impl<'a> Model for Gathered<'a> {
    ghost use Rattle.std.specs.Prelude.{◌<◌, ◌^◌, ℕ, List, length, map};

    ghost Value = { List (List ℕ) };

    ghost view = { λ g. map (λ n. n.now) g.names.items };

    ghost invariant = { λ g. (0 < length g.slots.items) × (length g.slots.items < 2 ^ 32) };
}

// The eight bytes from a place on, as one number.
fn eight_at(name: &[u8], at: usize) -> u64
    requires { at + 8 ≤ length name.now }
{
    u64::from_be_bytes([
        name[at],
        name[at + 1],
        name[at + 2],
        name[at + 3],
        name[at + 4],
        name[at + 5],
        name[at + 6],
        name[at + 7],
    ])
}

// The last eight bytes of a name and the eight before them, as far as it has them.
fn last_of(name: &[u8]) -> (u64, u64) {
    let len = name.len();
    if len >= 8 {
        return (eight_at(name, len.max(16) - 16), eight_at(name, len - 8));
    }
    let mut all: u64 = 0;
    for byte in name {
        all = all << 8 | u64::from(*byte);
    }
    (0, all)
}

// A number that goes by the last sixteen bytes of a name, and by how long it is.
fn sum_of(name: &[u8]) -> u32 {
    let (front, back) = last_of(name);
    let mixed = (front ^ name.len() as u64).wrapping_mul(0x9e37_79b9_7f4a_7c15) ^ back;
    (mixed.wrapping_mul(0xd6e8_feb8_6659_fd93) >> 32) as u32
}

// Where the looks for a sum begin, among so many slots.
fn first_slot(sum: u32, count: usize) -> usize
    requires some { 0 < count }
    requires few { count < 4294967296 }
    ensures { result < count }
{
    (u64::from(sum) * count as u64 / 0x1_0000_0000) as usize
}

// Whether the name stands at the place.
fn stands_at(names: &[&[u8]], place: u32, name: &[u8]) -> bool
    ensures { IsTrue result → StandsAt (map (λ n. n.now) names.now) place name.now }
{
    let place = place as usize;
    if place >= names.len() {
        return false;
    }
    let found = names[place];
    found == name
}

// The place of the name, or else the slot that is to tell it.
fn look_for(slots: &[u32], names: &[&[u8]], sum: u32, name: &[u8]) -> Result<u32, usize>
    requires some { 0 < length slots.now }
    requires few { length slots.now < 4294967296 }
    ensures { MatchResult result
        (λ k. StandsAt (map (λ n. n.now) names.now) k name.now)
        (λ slot. slot < length slots.now) }
{
    let guess = sum & (u32::MAX >> PLACE_BITS);
    let mut at = first_slot(sum, slots.len());
    let mut looks = 0;
    while looks < LOOKS {
        let slot = slots[at];
        if slot == NOBODY {
            return Err(at);
        }
        let place = slot & PLACES;
        if slot >> PLACE_BITS == guess && stands_at(names, place, name) {
            return Ok(place);
        }
        at = if at + 1 < slots.len() { at + 1 } else { 0 };
        looks += 1;
    }
    Err(at)
}

impl<'a> Gathered<'a> {
    /// No names yet; room for so many, and for the guesses of them.
    pub fn nobody(alloc: Global, names: usize) -> Result<Gathered<'a>, AllocError>
        requires { names ≤ 131072 }
        ensures { IfOk result (λ g. g ≡ []) }
    {
        Ok(Gathered {
            names: Vec::with_capacity(alloc, names)?,
            slots: Vec::from_elem(alloc, NOBODY, names + names / 4 + 1)?,
        })
    }

    /// The place of a name, which is put behind the others unless it is found.
    #[tactic(auto, using(crate::proofs::Placing::none_put, crate::proofs::Placing::one_put, crate::proofs::Placing::stands_last))]
    pub fn place(&mut self, name: &'a [u8]) -> Result<u32, AllocError>
        requires few { length self.old < 4294967295 }
        ensures stands { IfOk result (λ k. StandsAt self.new k name.now) }
        ensures put { ArePutBehind self.old (name.now ∷ []) self.new }
        ensures one { length self.new ≤ length self.old + 1 }
    {
        let sum = sum_of(name);
        match look_for(self.slots.as_slice(), self.names.as_slice(), sum, name) {
            Ok(place) => Ok(place),
            Err(slot) => {
                let place = self.names.len() as u32;
                self.names.push(name)?;
                self.slots[slot] = sum << PLACE_BITS | place & PLACES;
                Ok(place)
            }
        }
    }

    /// The names.
    pub fn names(self) -> Vec<&'a [u8]>
        ensures { map (λ n. n.now) result.items ≡ self.entry }
    {
        self.names
    }
}
