//! What the threads of a test share, and the policy that changes its mind.
ghost use Rattle.std.specs.Prelude.{◌≡◌, ◌∷◌, [], true, Some};
ghost use Rattle.shfl_core.specs.Plan as plan;
ghost use Rattle.shfl_line.specs.declared.events.Mode.TheVariants.{Write};

use shfl_line::{Attr, Chooser};
use shfl_table::{Kept, Pass, SharedBoard};
use std::sync::Wait;
use std::sync::atomic::{AtomicU64, Ordering};
use std::thread;
use syn_outer::{Gate, Point};

/// How often the lock was held by a writer, and how many writers are inside now.
#[derive(Drop)]
pub struct Tally {
    pub holds: u64,
    pub inside: u64,
}

impl Kept for Tally {
    ghost use Rattle.std.specs.Prelude.{[]};

    ghost initial_state = { λ _. [] };

    ghost history = { λ _. [] };
}

/// Who is inside, how often somebody met one whom the lock keeps out, and how often somebody queued or ended a round.
#[derive(Drop)]
pub struct Crowd {
    pub readers: AtomicU64,
    pub writers: AtomicU64,
    pub met: AtomicU64,
    queued: AtomicU64,
}

impl Crowd {
    pub fn new() -> Crowd {
        Crowd {
            readers: AtomicU64::new(0),
            writers: AtomicU64::new(0),
            met: AtomicU64::new(0),
            queued: AtomicU64::new(0),
        }
    }

    pub fn note(&self, is_alone: bool) {
        if !is_alone {
            let met = &self.met;
            let _ = met.fetch_add(1, Ordering::SeqCst);
        }
    }

    /// Waits until some have queued since, or for a while.
    pub fn linger(&self) {
        let queued = &self.queued;
        let before = queued.load(Ordering::SeqCst);
        for _ in 0..100 {
            if queued.load(Ordering::SeqCst).wrapping_sub(before) > 2 {
                return;
            }
            thread::yield_now();
        }
    }
}

impl Gate for Crowd {
    fn at<Rt: Wait>(&self, _rt: &Rt, _worker: u32, point: Point) {
        if matches!(point, Point::Queued) {
            let queued = &self.queued;
            let _ = queued.fetch_add(1, Ordering::SeqCst);
        }
    }
}

/// Says yes and no in turn.
#[derive(Drop)]
pub struct Alternating {
    pub yes: bool,
}

impl Chooser for Alternating {
    ghost use Rattle.std.specs.Prelude.{[], false, None};

    ghost home = { λ _. [] };

    ghost in_round = { λ _. false };

    ghost told = { λ _. None };

    fn may_move_waiters(&self) -> bool {
        true
    }

    fn begin<Rt: Wait>(&mut self, _rt: &Rt) {}

    fn skip(&mut self, _anchor: &Attr, _batch: u16) -> bool {
        false
    }

    fn should(&mut self, _anchor: &Attr, _waiter: &Attr, _batch: u16) -> bool {
        self.yes = !self.yes;
        self.yes
    }

    fn end(&mut self) {}
}

/// Takes the value out, sets the mark in it, and puts it back: whether the mark was as expected, and how often the lock was held.
pub fn mark(
    board: &SharedBoard<Tally>,
    pass: &mut Pass<Tally>,
    expected: u64,
    inside: u64,
) -> (bool, u64)
    requires board { pass.old.board ≡ board.now.id }
    requires holds { (plan.is_held pass.old.own.phase ≡ true) × (pass.old.own.reg.mode ≡ Write) }
    requires value { (x : _) × (pass.old.values ≡ Some x ∷ []) }
    ensures { (x : _) × (pass.new ≡ record pass.old { values = Some x ∷ [] }) }
{
    let mut tally = pass.take_value(board, 0);
    let as_expected = tally.inside == expected;
    tally.inside = inside;
    tally.holds = tally.holds.wrapping_add(inside);
    let holds = tally.holds;
    pass.put_value(board, 0, tally);
    (as_expected, holds)
}
