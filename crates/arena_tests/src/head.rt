//! Nobody comes past a seat that waits at the queue's head.
ghost use Rattle.std.specs.Prelude.{◌≡◌, ◌<◌};
ghost use Rattle.shfl_arena.specs.SeatModels.{IsNewAt};

use crate::driven::Driven;
use shared_tests::{LOOKS, PLAIN, await_sign, give_sign, nap};
use shfl_arena::{Arena, ArenaSeat, Shape, free, wait_for};
use shfl_core::Phase;
use shfl_line::{Attr, CLOSED, Chooser, Form, Mode, NoMemory};
use std::alloc::Global;
use std::sync::Wait;
use std::sync::atomic::AtomicU64;
use std::test::Fail;
use std::thread;
use std::thread::Threads;

/// How often another seat tries to come past the head.
const TRIES: u32 = 1000;

/// How far the threads are.
#[derive(Drop)]
struct Signs {
    ready: AtomicU64,
    queued: AtomicU64,
    opened: AtomicU64,
    tried: AtomicU64,
}

/// The head, which has disabled stealing, stays before its round until the seat before it has enabled that again.
#[derive(Drop)]
struct Leading<'a> {
    signs: &'a Signs,
}

impl<'a> Chooser for Leading<'a> {
    ghost use Rattle.std.specs.Prelude.{[], false, None};

    ghost home = { λ _. [] };

    ghost in_round = { λ _. false };

    ghost told = { λ _. None };

    fn may_move_waiters(&self) -> bool {
        true
    }

    fn begin<Rt: Wait>(&mut self, rt: &Rt) {
        give_sign(&self.signs.queued);
        await_sign(rt, &self.signs.opened, 1);
    }

    fn skip(&mut self, _anchor: &Attr, _batch: u16) -> bool {
        false
    }

    fn should(&mut self, _anchor: &Attr, _waiter: &Attr, _batch: u16) -> bool {
        false
    }

    fn end(&mut self) {}
}

/// Waits at the queue's head, and holds the lock until the other seat has tried.
fn lead<R: Wait>(rt: &R, arena: &Arena<()>, mut seat: ArenaSeat<()>, signs: &Signs)
    requires seat { IsNewAt arena.now.id seat }
    requires some { 0 < arena.now.id.shape.locks }
    requires none { arena.now.id.table.slots ≡ 0 }
{
    await_sign(rt, &signs.ready, 1);
    let mut leading = Leading { signs };
    wait_for(rt, arena, &mut seat, 0, Mode::Write, &PLAIN, &mut leading);
    await_sign(rt, &signs.tried, 1);
    free(arena, &mut seat, 0, Mode::Write);
}

/// Steps until its next step enables stealing, for a while at most.
fn step_to_open(seat: &mut Driven) {
    for _ in 0..20 {
        if seat.phase() != Phase::Open {
            seat.steps(1);
        }
    }
}

/// Whether stealing is disabled: the word says so that refuses the seat.
fn is_disabled(seat: &mut Driven) -> bool {
    match seat.attempt(Mode::Write) {
        Ok(()) => false,
        Err(word) => word & CLOSED != 0,
    }
}

/// The holder has queued behind the other seat, and leaves the queue last: when the head has disabled stealing, it enables that. Whether
/// stealing was disabled before, and whether it is now.
fn open_behind<R: Wait>(
    rt: &R,
    signs: &Signs,
    holder: &mut Driven,
    other: &mut Driven,
) -> (bool, bool) {
    let _ = other.acquire(Mode::Write);
    other.steps(1);
    let _ = holder.acquire(Mode::Write);
    // Steal, Init, Swap, Close, Begin, Next, Give.
    holder.steps(7);
    let _ = other.give_back();
    step_to_open(holder);
    give_sign(&signs.ready);
    await_sign(rt, &signs.queued, 1);
    let before = is_disabled(other);
    holder.steps(1);
    let after = is_disabled(other);
    give_sign(&signs.opened);
    (before, after)
}

/// Whether the head disables stealing again.
fn sees_disabled<R: Wait>(rt: &R, other: &mut Driven) -> bool {
    for _ in 0..LOOKS {
        if is_disabled(other) {
            return true;
        }
        nap(rt, 100);
    }
    false
}

/// How often the other seat has the lock.
fn steals(other: &mut Driven) -> u32 {
    let mut won = 0u32;
    for tried in 0..TRIES {
        let mode = if tried % 2 == 0 {
            Mode::Read
        } else {
            Mode::Write
        };
        if other.attempt(mode).is_ok() {
            won = won.saturating_add(1);
            let _ = other.give_back();
        }
    }
    won
}

/// What comes to pass beside the head.
#[derive(Clone, Copy, Debug, PartialEq, Eq, Drop)]
struct Seen {
    // stealing was disabled before the holder enabled it
    disabled: bool,
    enabled: bool,
    disabled_again: bool,
    // how often the other seat came past the head when the holder had freed the lock
    steals: u32,
}

fn beside<R: Wait>(rt: &R, signs: &Signs, mut holder: Driven, mut other: Driven) -> Seen {
    let (disabled, still) = open_behind(rt, signs, &mut holder, &mut other);
    let disabled_again = sees_disabled(rt, &mut other);
    let _ = holder.give_back();
    let steals = steals(&mut other);
    give_sign(&signs.tried);
    Seen {
        disabled,
        enabled: !still,
        disabled_again,
        steals,
    }
}

/// The same, beside the head's thread.
fn race<R: Threads + Wait + Sync>(
    rt: &R,
    arena: &Arena<()>,
    holder: Driven,
    other: Driven,
    head: ArenaSeat<()>,
) -> Seen
    requires seat { IsNewAt arena.now.id head }
    requires some { 0 < arena.now.id.shape.locks }
    requires none { arena.now.id.table.slots ≡ 0 }
{
    let signs = Signs {
        ready: AtomicU64::new(0),
        queued: AtomicU64::new(0),
        opened: AtomicU64::new(0),
        tried: AtomicU64::new(0),
    };
    let signs = &signs;
    let (told, ()) = thread::join(
        rt,
        move || beside(rt, signs, holder, other),
        move || lead(rt, arena, head, signs),
    );
    told
}

/// The same, of a new lock.
fn passed<R: Threads + Wait + Sync>(
    rt: &R,
    alloc: Global,
    form: Form,
) -> Result<Option<Seen>, NoMemory> {
    let shape = Shape {
        locks: 1,
        spread: false,
    };
    let values = Vec::new(alloc);
    let (arena, mut seats) = Arena::<()>::open(alloc, shape, &[PLAIN; 3], form, 1024, values)?;
    let (Some(head), Some(other), Some(holder)) = (seats.pop(), seats.pop(), seats.pop()) else {
        return Ok(None);
    };
    let other = Driven::new(form, &arena, other);
    let holder = Driven::new(form, &arena, holder);
    Ok(Some(race(rt, &arena, holder, other, head)))
}

#[test]
fn nobody_comes_past_the_head(rt: HostRuntime) -> Result<(), Fail> {
    for form in [Form::Spin, Form::Rw, Form::Park, Form::RwPark] {
        let seen = passed(&rt, rt.alloc(), form)?;
        let due = Seen {
            disabled: true,
            enabled: true,
            disabled_again: true,
            steals: 0,
        };
        assert_eq!(rt; seen, Some(due));
    }
    Ok(())
}
