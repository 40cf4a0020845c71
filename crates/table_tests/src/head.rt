//! Nobody comes past a pass that waits at the queue's head.
ghost use Rattle.std.specs.Prelude.{◌≡◌};
ghost use Rattle.shfl_table.specs.PassModel.{IsIdleAt};

use crate::checks::same;
use crate::driven::{Driven, drive, opened};
use shared_tests::{FORMS, LOOKS, PLAIN, await_sign, nap};
use shfl_core::Phase;
use shfl_line::{CLOSED, Form, Mode, Never};
use shfl_table::{Pass, Queueing, SharedBoard, free, wait_by};
use std::alloc::Global;
use std::process::Abort;
use std::sync::Wait;
use std::sync::atomic::{AtomicU64, Ordering};
use std::thread;
use std::thread::Threads;
use syn_outer::{Gate, Point};

/// How often another pass tries to come past the head.
const TRIES: u32 = 1000;

/// How far the threads are.
#[derive(Drop)]
struct Signs {
    ready: AtomicU64,
    queued: AtomicU64,
    opened: AtomicU64,
    tried: AtomicU64,
}

/// The head stays where it has disabled stealing, until the pass before it has enabled that again.
impl Gate for Signs {
    fn at<Rt: Wait>(&self, rt: &Rt, _worker: u32, point: Point) {
        if !matches!(point, Point::Queued) {
            return;
        }
        let queued = &self.queued;
        let _ = queued.fetch_add(1, Ordering::SeqCst);
        await_sign(rt, &self.opened, 1);
    }
}

/// Waits at the queue's head, and holds the lock until the other pass has tried.
fn lead<R: Wait>(rt: &R, board: &SharedBoard<()>, mut pass: Pass<()>, signs: &Signs)
    requires pass { IsIdleAt board.now.id pass }
{
    await_sign(rt, &signs.ready, 1);
    wait_by(
        rt,
        board,
        &mut pass,
        Mode::Write,
        Queueing::AtOnce,
        &PLAIN,
        &mut Never,
        signs,
    );
    await_sign(rt, &signs.tried, 1);
    free(board, &mut pass);
}

fn step_before_open(pass: &mut Driven) {
    if !matches!(pass.phase(), Phase::Open) {
        pass.steps(1);
    }
}

/// Steps until its next step enables stealing, for a while at most.
fn step_to_open(pass: &mut Driven) {
    for _ in 0..20 {
        step_before_open(pass);
    }
}

/// Whether stealing is disabled: the word says so that refuses the pass.
fn is_disabled(pass: &mut Driven) -> bool {
    match pass.attempt(Mode::Write) {
        Ok(()) => false,
        Err(word) => word & CLOSED != 0,
    }
}

/// The holder has queued behind the other pass, and leaves the queue last: when the head has disabled stealing, it enables that. Whether
/// stealing was disabled before, and whether it is now.
fn open_behind<R: Wait>(
    rt: &R,
    signs: &Signs,
    holder: &mut Driven,
    other: &mut Driven,
) -> (bool, bool) {
    let _ = other.acquire(Mode::Write);
    other.steps(1);
    let _ = holder.acquire(Mode::Write);
    // Steal, Init, Swap, Close, Begin, Next, Give.
    holder.steps(7);
    other.give_back();
    step_to_open(holder);
    let ready = &signs.ready;
    ready.store(1, Ordering::SeqCst);
    await_sign(rt, &signs.queued, 1);
    let before = is_disabled(other);
    holder.steps(1);
    let after = is_disabled(other);
    let opened = &signs.opened;
    opened.store(1, Ordering::SeqCst);
    (before, after)
}

/// Whether the head disables stealing again.
fn sees_disabled<R: Wait>(rt: &R, other: &mut Driven) -> bool {
    for _ in 0..LOOKS {
        if is_disabled(other) {
            return true;
        }
        nap(rt, 100);
    }
    false
}

/// How often the other pass has the lock.
fn steals(other: &mut Driven) -> u32 {
    let mut won = 0u32;
    for tried in 0..TRIES {
        let mode = if tried % 2 == 0 {
            Mode::Write
        } else {
            Mode::Read
        };
        if other.attempt(mode).is_ok() {
            won = won.saturating_add(1);
            other.give_back();
        }
    }
    won
}

/// What comes to pass beside the head.
#[derive(Clone, Copy, Debug, PartialEq, Eq, Drop)]
struct Seen {
    // stealing was disabled before the holder enabled it
    disabled: bool,
    enabled: bool,
    disabled_again: bool,
    // how often the other pass came past the head when the holder had freed the lock
    steals: u32,
}

fn beside<R: Wait>(rt: &R, signs: &Signs, holder: &mut Driven, other: &mut Driven) -> Seen {
    let (disabled, still) = open_behind(rt, signs, holder, other);
    let disabled_again = sees_disabled(rt, other);
    holder.give_back();
    let steals = steals(other);
    let tried = &signs.tried;
    tried.store(1, Ordering::SeqCst);
    Seen {
        disabled,
        enabled: !still,
        disabled_again,
        steals,
    }
}

/// The same, beside the head's thread.
fn race<R: Threads + Wait + Sync>(
    rt: &R,
    board: &SharedBoard<()>,
    holder: &mut Driven,
    other: &mut Driven,
    head: Pass<()>,
) -> Seen
    requires head { IsIdleAt board.now.id head }
{
    let signs = Signs {
        ready: AtomicU64::new(0),
        queued: AtomicU64::new(0),
        opened: AtomicU64::new(0),
        tried: AtomicU64::new(0),
    };
    let signs = &signs;
    let (told, ()) = thread::join(
        rt,
        move || beside(rt, signs, holder, other),
        move || lead(rt, board, head, signs),
    );
    told
}

/// The same, of a new lock.
fn passed<R: Abort + Threads + Wait + Sync>(rt: &R, alloc: Global, form: Form) -> Seen {
    let (board, mut passes) = opened(rt, alloc, form, &[PLAIN; 3]);
    let head = passes.pop().expect(rt, "a head");
    let mut driven = drive(rt, alloc, form, &board, passes);
    let mut other = driven.pop().expect(rt, "another pass");
    let mut holder = driven.pop().expect(rt, "a holder");
    race(rt, &board, &mut holder, &mut other, head)
}

const DUE: Seen = Seen {
    disabled: true,
    enabled: true,
    disabled_again: true,
    steals: 0,
};

#[test]
fn nobody_comes_past_the_head(rt: HostRuntime) {
    for form in FORMS {
        same(&rt, &passed(&rt, rt.alloc(), form), &DUE);
    }
}
