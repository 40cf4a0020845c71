//! A policy that keeps what it is told.
ghost use Rattle.std.specs.Prelude.{List, [], Some, None, if◌then◌else◌};

use shfl_line::{Answer, Attr, Chooser, Told};
use std::alloc::Global;
use std::sync::Wait;

/// A policy that keeps what it is told, until it has no memory for more. It skips no round, and answers the same about every waiter.
#[derive(Drop)]
pub struct Recorder {
    told: Vec<Told>,
    lost: bool,
    asking: bool,
    takes_all: bool,
}

impl Recorder {
    pub fn new(alloc: Global, takes_all: bool) -> Recorder {
        Recorder {
            told: Vec::new(alloc),
            lost: false,
            asking: false,
            takes_all,
        }
    }

    /// What it was told, or `None` where it had no memory for all of it.
    pub fn told(&self) -> Option<&[Told]> {
        if self.lost {
            return None;
        }
        Some(&self.told)
    }

    /// Whether it is in a round.
    pub fn is_asking(&self) -> bool {
        self.asking
    }
}

impl Chooser for Recorder {
    ghost home = { λ _. [] };

    ghost in_round = { λ s. s.asking };

    ghost told = { λ s. if s.lost then None else Some s.told.items };

    fn may_move_waiters(&self) -> bool {
        true
    }

    fn begin<Rt: Wait>(&mut self, _rt: &Rt) {
        self.asking = true;
        match self.told.push(Told::Begun) {
            Ok(()) => {}
            Err(_) => self.lost = true,
        }
    }

    fn skip(&mut self, anchor: &Attr, batch: u16) -> bool {
        let answer = Answer {
            anchor: *anchor,
            waiter: None,
            batch,
            answer: false,
        };
        match self.told.push(Told::Answered(answer)) {
            Ok(()) => {}
            Err(_) => self.lost = true,
        }
        false
    }

    fn should(&mut self, anchor: &Attr, waiter: &Attr, batch: u16) -> bool {
        let takes = self.takes_all;
        let answer = Answer {
            anchor: *anchor,
            waiter: Some(*waiter),
            batch,
            answer: takes,
        };
        match self.told.push(Told::Answered(answer)) {
            Ok(()) => {}
            Err(_) => self.lost = true,
        }
        takes
    }

    fn end(&mut self) {
        self.asking = false;
        match self.told.push(Told::Ended) {
            Ok(()) => {}
            Err(_) => self.lost = true,
        }
    }
}
