//! A pass gives its processor away only where it looked in vain, and never between having the lock's word and holding the lock. On one
//! thread: who holds the lock before it frees it from within a call that the waiting pass makes. `tests/yields.sh` counts what the system is asked.
ghost use Rattle.std.specs.Prelude.{◌≡◌};
ghost use Rattle.shfl_table.specs.PassModel.{IsIdleAt};

use crate::checks::same;
use crate::driven::{Driven, opened};
use shared_tests::{FORMS, PLAIN};
use shfl_line::{Attr, Chooser, Form, Mode, Never};
use shfl_table::{Pass, Queueing, SharedBoard, free, wait_by};
use std::alloc::Global;
use std::cell::{Cell, RefCell};
use std::process::Abort;
use std::sync::Wait;
use syn_outer::{Gate, Point};

/// Has the holder free the lock when a round begins.
#[derive(Drop)]
struct Freeing<'a> {
    holder: Driven<'a>,
    rounds: u32,
}

impl<'a> Chooser for Freeing<'a> {
    ghost use Rattle.std.specs.Prelude.{[], false, None};

    ghost home = { λ _. [] };

    ghost in_round = { λ _. false };

    ghost told = { λ _. None };

    fn may_move_waiters(&self) -> bool {
        true
    }

    fn begin<Rt: Wait>(&mut self, _rt: &Rt) {
        self.holder.give_back();
        self.rounds = self.rounds.saturating_add(1);
    }

    fn skip(&mut self, _anchor: &Attr, _batch: u16) -> bool {
        false
    }

    fn should(&mut self, _anchor: &Attr, _waiter: &Attr, _batch: u16) -> bool {
        true
    }

    fn end(&mut self) {}
}

/// Counts how often a pass gives its processor away.
#[derive(Drop)]
struct Ways {
    given: Cell<u32>,
}

impl Ways {
    fn new() -> Ways {
        Ways {
            given: Cell::new(0),
        }
    }
}

impl Gate for Ways {
    fn at<Rt: Wait>(&self, _rt: &Rt, _worker: u32, point: Point) {
        if matches!(point, Point::GivesWay) {
            self.given.set(self.given.get().saturating_add(1));
        }
    }
}

/// The same, and has the holder free the lock then.
#[derive(Drop)]
struct Letting<'a> {
    holder: RefCell<Driven<'a>>,
    ways: Ways,
}

impl<'a> Letting<'a> {
    fn let_go(&self) {
        if let Ok(mut holder) = self.holder.try_borrow_mut() {
            holder.give_back();
        }
    }
}

impl<'a> Gate for Letting<'a> {
    fn at<Rt: Wait>(&self, rt: &Rt, worker: u32, point: Point) {
        self.ways.at(rt, worker, point);
        if matches!(point, Point::GivesWay) {
            self.let_go();
        }
    }
}

/// Waits for the lock, and holds it once.
fn come_through<C: Chooser, G: Gate, R: Wait>(
    rt: &R,
    board: &SharedBoard<()>,
    pass: &mut Pass<()>,
    queueing: Queueing,
    chooser: &mut C,
    gate: &G,
)
    requires pass { IsIdleAt board.now.id pass.old }
    ensures { IsIdleAt board.now.id pass.new }
{
    wait_by(
        rt,
        board,
        pass,
        Mode::Write,
        queueing,
        &PLAIN,
        chooser,
        gate,
    );
    free(board, pass);
}

/// A lock without values, and its two passes.
fn with_two(rt: &impl Abort, alloc: Global, form: Form) -> (SharedBoard<()>, Pass<()>, Pass<()>)
    ensures form { result.0.id.rules.form ≡ form }
    ensures none { result.0.id.table.slots ≡ 0 }
    ensures passes { IsIdleAt result.0.id result.1 × IsIdleAt result.0.id result.2 }
{
    let (board, mut passes) = opened(rt, alloc, form, &[PLAIN; 2]);
    let waiter = passes.pop().expect(rt, "a waiter");
    let holder = passes.pop().expect(rt, "a holder");
    (board, waiter, holder)
}

/// The pass holds the lock.
fn held_by<'a>(form: Form, board: &'a SharedBoard<()>, pass: Pass<()>) -> Driven<'a>
    requires pass { IsIdleAt board.now.id pass }
    requires form { board.now.id.rules.form ≡ form }
    requires none { board.now.id.table.slots ≡ 0 }
{
    let mut holder = Driven::new(form, board, pass);
    let _ = holder.acquire(Mode::Write);
    holder.steps(1);
    holder
}

/// The holder frees the lock when a round begins, which is before the pass looks for it: how many rounds began, and how often the pass
/// gave its processor away.
fn straight<R: Abort + Wait>(rt: &R, alloc: Global, form: Form) -> (u32, u32) {
    let (board, mut waiter, holder) = with_two(rt, alloc, form);
    let holder = held_by(form, &board, holder);
    let ways = Ways::new();
    let mut chooser = Freeing { holder, rounds: 0 };
    come_through(
        rt,
        &board,
        &mut waiter,
        Queueing::AtOnce,
        &mut chooser,
        &ways,
    );
    (chooser.rounds, ways.given.get())
}

/// The holder frees the lock when the pass is about to give its processor away: how often it does that.
fn in_vain<R: Abort + Wait>(rt: &R, alloc: Global, form: Form, queueing: Queueing) -> u32 {
    let (board, mut waiter, holder) = with_two(rt, alloc, form);
    let holder = held_by(form, &board, holder);
    let letting = Letting {
        holder: RefCell::new(holder),
        ways: Ways::new(),
    };
    come_through(rt, &board, &mut waiter, queueing, &mut Never, &letting);
    letting.ways.given.get()
}

#[test]
fn who_never_looks_in_vain_comes_through_in_one_round(rt: HostRuntime) {
    for form in FORMS {
        same(&rt, &straight(&rt, rt.alloc(), form), &(1, 0));
    }
}

#[test]
fn who_looked_in_vain_gives_way_once(rt: HostRuntime) {
    for form in FORMS {
        let given = in_vain(&rt, rt.alloc(), form, Queueing::AtOnce);
        same(&rt, &given, &1);
    }
}

#[test]
fn who_tried_in_vain_gives_way_once(rt: HostRuntime) {
    for form in FORMS {
        let given = in_vain(&rt, rt.alloc(), form, Queueing::After { attempts: 64 });
        same(&rt, &given, &1);
    }
}
