//! The text of the parked passes, kept for the rows after which the same passes are parked.
ghost use Rattle.std.specs.Prelude.{◌≡◌, ◌≤◌, true, length, map, decimal, vec_capacity};
ghost use Rattle.shfl_sched.specs.ReportParts.{listed, parked_below, parked_text};
ghost use Rattle.shfl_sched.specs.Room.{Puts};

use crate::report_parts::put_passes;
use crate::room::put;
use shfl_core::Board;
use shfl_line::NoMemory;
use std::alloc::Global;

// Finds the parked passes of a lock of so many, for which there is room.
#[tactic(auto, using(crate::proofs::Parked::one_more, crate::proofs::Parked::none_more))]
fn find_parked<B: Board>(found: &mut Vec<u32>, board: &B, passes: u32)
    requires passes { length (B.meaning board.now).world.passes ≡ passes }
    requires room { passes ≤ vec_capacity found.old }
    ensures found { found.new.items ≡ parked_below (B.meaning board.now).world passes }
    ensures room { vec_capacity found.old ≤ vec_capacity found.new }
{
    found.clear();
    for pass in 0..passes {
        if board.asleep(pass) {
            let _found = found.push(pass);
        }
    }
}

/// The passes that were written last, and their text.
#[derive(Drop)]
pub struct ParkedText {
    known: bool,
    passes: Vec<u32>,
    text: Vec<u8>,
    ghost is_text: { known ≡ true → text.items ≡ listed (map decimal passes.items) },
    ghost few: { length text.items ≤ 1345 },
    ghost passes_room: { 64 ≤ vec_capacity passes },
    ghost text_room: { 1345 ≤ vec_capacity text },
}

impl ParkedText {
    /// No passes were written yet. There is room for 64.
    pub fn open(alloc: Global) -> Result<ParkedText, NoMemory> {
        Ok(ParkedText {
            known: false,
            passes: Vec::with_capacity(alloc, 64)?,
            text: Vec::with_capacity(alloc, 1345)?,
        })
    }

    // Whether those that were written last are the parked passes of a lock of so many.
    #[tactic(auto, using(crate::proofs::Parked::met_rules))]
    fn is_of<B: Board>(&self, board: &B, passes: u32) -> bool
        requires { length (B.meaning board.now).world.passes ≡ passes }
        ensures known { result ≡ true → self.now.known ≡ true }
        ensures parked { result ≡ true
            → self.now.passes.items ≡ parked_below (B.meaning board.now).world passes }
    {
        let mut met = 0;
        for pass in 0..passes {
            if board.asleep(pass) {
                if met >= self.passes.len() || self.passes[met] != pass {
                    return false;
                }
                met += 1;
            }
        }
        self.known && met == self.passes.len()
    }

    // Keeps the parked passes and their text.
    fn keep<B: Board>(&mut self, board: &B, passes: u32)
        requires passes { length (B.meaning board.now).world.passes ≡ passes }
        requires few { passes ≤ 64 }
        ensures { self.new.text.items ≡ parked_text (B.meaning board.now).world }
    {
        self.known = false;
        find_parked(&mut self.passes, board, passes);
        self.text.clear();
        put_passes(&mut self.text, &self.passes);
        self.known = true;
    }

    /// Writes the parked passes of a lock of so many.
    pub fn put<B: Board>(&mut self, out: &mut Vec<u8>, board: &B, passes: u32)
        requires passes { length (B.meaning board.now).world.passes ≡ passes }
        requires few { passes ≤ 64 }
        ensures { Puts out.old out.new (parked_text (B.meaning board.now).world) 1345 }
    {
        if !self.is_of(board, passes) {
            self.keep(board, passes);
        }
        put(out, self.text.as_slice());
    }
}
