//! A shuffler that finds nobody to move pauses longer each time before it looks again.
ghost use Rattle.std.specs.Prelude.{◌≡◌, All, true};
ghost use Rattle.shfl_core.specs.Waiting.{MayUse};
ghost use Rattle.shfl_table.specs.PassModel.{IsIdleAt};

use crate::checks::holds;
use shared_tests::{FORMS, PLAIN, await_sign, nap};
use shfl_line::{Attr, Chooser, Form, Mode};
use shfl_table::{Pass, Queueing, SharedBoard, free, open, wait_by};
use std::alloc::Global;
use std::process::Abort;
use std::sync::Wait;
use std::sync::atomic::{AtomicU64, Ordering};
use std::thread;
use std::thread::Threads;
use syn_outer::OpenGate;

/// How long the holder stays, and how many rounds the waiters may begin meanwhile.
const HELD_MICROS: u32 = 100_000;

const MOST_ROUNDS: u64 = 64;

/// What the threads tell each other.
#[derive(Drop)]
struct Signs {
    held: AtomicU64,
    arrived: AtomicU64,
    rounds: AtomicU64,
    counted: AtomicU64,
}

/// Moves every waiter up, and counts the rounds.
#[derive(Drop)]
struct Counting<'a> {
    signs: &'a Signs,
}

impl<'a> Chooser for Counting<'a> {
    ghost use Rattle.std.specs.Prelude.{[], false, None};

    ghost home = { λ _. [] };

    ghost in_round = { λ _. false };

    ghost told = { λ _. None };

    fn may_move_waiters(&self) -> bool {
        true
    }

    fn begin<Rt: Wait>(&mut self, _rt: &Rt) {
        let rounds = &self.signs.rounds;
        let _ = rounds.fetch_add(1, Ordering::SeqCst);
    }

    fn skip(&mut self, _anchor: &Attr, _batch: u16) -> bool {
        false
    }

    fn should(&mut self, _anchor: &Attr, _waiter: &Attr, _batch: u16) -> bool {
        true
    }

    fn end(&mut self) {}
}

/// Holds the lock for long, while the others wait, and counts the rounds that they begin.
fn stay<R: Wait>(rt: &R, signs: &Signs) {
    let held = &signs.held;
    held.store(1, Ordering::SeqCst);
    await_sign(rt, &signs.arrived, 3);
    nap(rt, HELD_MICROS);
    let rounds = &signs.rounds;
    let counted = &signs.counted;
    counted.store(rounds.load(Ordering::SeqCst), Ordering::SeqCst);
}

/// The first pass holds the lock for long; the others queue behind it.
fn hold<R: Wait>(rt: &R, board: &SharedBoard<()>, pass: &mut Pass<()>, signs: &Signs)
    requires pass { IsIdleAt board.now.id pass.old }
    ensures { IsIdleAt board.now.id pass.new }
{
    let first = pass.number() == 0;
    if !first {
        await_sign(rt, &signs.held, 1);
        let arrived = &signs.arrived;
        let _ = arrived.fetch_add(1, Ordering::SeqCst);
    }
    let mut chooser = Counting { signs };
    wait_by(
        rt,
        board,
        pass,
        Mode::Write,
        Queueing::AtOnce,
        &PLAIN,
        &mut chooser,
        &OpenGate,
    );
    if first {
        stay(rt, signs);
    }
    free(board, pass);
}

/// What the threads of a test tell each other, before they begin.
fn no_signs() -> Signs {
    Signs {
        held: AtomicU64::new(0),
        arrived: AtomicU64::new(0),
        rounds: AtomicU64::new(0),
        counted: AtomicU64::new(0),
    }
}

/// Each pass holds the lock once, in a thread of its own.
fn hold_all<R: Threads + Wait + Sync>(
    rt: &R,
    board: &SharedBoard<()>,
    passes: &mut [Pass<()>],
    signs: &Signs,
)
    requires { All (IsIdleAt board.now.id) passes.old }
{
    let job = |_i: usize, pass: &mut Pass<()>|
        requires pass { IsIdleAt board.now.id pass.now }
        ensures { IsIdleAt board.entry.now.id pass.exit.now }
    { hold(rt, board, pass, signs) };
    thread::for_each_mut(rt, passes, 4, &job);
}

/// Four threads begin few rounds while one of them holds the lock.
fn begin_few_rounds<R: Abort + Threads + Wait + Sync>(rt: &R, alloc: Global, form: Form) {
    let attrs = [PLAIN, PLAIN, PLAIN, PLAIN];
    let Ok((board, mut passes)) = open::<()>(alloc, &attrs, form, 1024, Vec::new(alloc)) else {
        panic!(rt; "memory")
    };
    let signs = no_signs();
    hold_all(rt, &board, &mut passes, &signs);
    let counted = &signs.counted;
    holds(rt, counted.load(Ordering::SeqCst) <= MOST_ROUNDS);
}

#[test]
fn rounds_are_few_while_nothing_changes(rt: HostRuntime) {
    for form in FORMS {
        begin_few_rounds(&rt, rt.alloc(), form);
    }
}
