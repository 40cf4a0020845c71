//! A queue's head beside passes that don't queue, on one thread.
use crate::checks::{holds, same};
use crate::tickets::last;
use shared_tests::FORMS;
use shfl_line::{Form, Mode};
use shfl_ticket::{Ticket, open, outcome_told};
use std::alloc::Global;
use std::process::Abort;

/// What `advance` tells of a step of the queue's head that looked in vain: stealing is disabled, or enabled.
const IN_VAIN: u8 = 2;

const IN_VAIN_OPEN: u8 = 3;

/// Three tickets of one lock. The first holds the lock, and has enabled stealing after the second joined the empty queue.
#[derive(Drop)]
struct Passed {
    holder: Ticket,
    head: Ticket,
    other: Ticket,
}

/// So many steps that choose yes, which skips each round: what the last of them came to.
fn advanced(ticket: &mut Ticket, count: u32) -> u8 {
    let mut last = 0;
    for _ in 0..count {
        last = outcome_told(ticket.advance(true));
    }
    last
}

/// The tickets of a lock of three passes.
fn open_three(rt: &impl Abort, alloc: Global, form: Form) -> Passed {
    let mut tickets = open(alloc, &[0; 3], form, 1024).ok().expect(rt, "a lock");
    let other = last(rt, &mut tickets);
    let head = last(rt, &mut tickets);
    let holder = last(rt, &mut tickets);
    Passed {
        holder,
        head,
        other,
    }
}

/// Begins to take the lock, and makes so many steps.
fn begin(ticket: &mut Ticket, count: u32) {
    let _ = ticket.acquire(Mode::Write);
    let _ = advanced(ticket, count);
}

/// Gives the lock back.
fn free(ticket: &mut Ticket) {
    let _ = ticket.release();
    let _ = advanced(ticket, 1);
}

/// The first pass queues behind the other, and leaves the queue last: its tail word is 0 before the second one joins, and stealing is
/// enabled after that one has disabled it.
fn opened_behind(rt: &impl Abort, alloc: Global, form: Form) -> Passed {
    let mut passes = open_three(rt, alloc, form);
    begin(&mut passes.other, 1);
    // Steal, Init, Swap, Close, Begin, Give.
    begin(&mut passes.holder, 6);
    free(&mut passes.other);
    // Peek, Grab, Take, Cut.
    let _ = advanced(&mut passes.holder, 4);
    begin(&mut passes.head, 6);
    // Open.
    let _ = advanced(&mut passes.holder, 1);
    passes
}

/// The holder leaves.
fn leave(ticket: &mut Ticket) -> bool {
    ticket.resting() && !ticket.leave()
}

/// Whether the ticket has the lock by an attempt.
fn steals(ticket: &mut Ticket) -> bool {
    ticket.attempt(Mode::Write)
}

#[test]
fn a_head_finds_stealing_enabled_and_is_passed(rt: HostRuntime) {
    for form in FORMS {
        let mut passes = opened_behind(&rt, rt.alloc(), form);
        same(&rt, &advanced(&mut passes.head, 1), &IN_VAIN_OPEN);
        holds(&rt, leave(&mut passes.holder));
        holds(&rt, steals(&mut passes.other));
    }
}

/// The head disables stealing again, and the holder leaves.
fn disable_and_leave(rt: &impl Abort, passes: &mut Passed) {
    holds(rt, passes.head.disable_stealing().is_some());
    same(rt, &advanced(&mut passes.head, 1), &IN_VAIN);
    holds(rt, leave(&mut passes.holder));
}

#[test]
fn a_head_that_disables_stealing_again_is_not_passed(rt: HostRuntime) {
    for form in FORMS {
        let mut passes = opened_behind(&rt, rt.alloc(), form);
        disable_and_leave(&rt, &mut passes);
        for _ in 0..1000 {
            holds(&rt, !steals(&mut passes.other));
        }
        // Peek, Grab, Take, Cut, Open.
        let _ = advanced(&mut passes.head, 5);
        holds(&rt, passes.head.resting());
        holds(&rt, leave(&mut passes.head));
        holds(&rt, steals(&mut passes.other));
    }
}

#[test]
fn a_pass_that_is_not_the_head_disables_nothing(rt: HostRuntime) {
    let mut passes = opened_behind(&rt, rt.alloc(), Form::Rw);
    holds(&rt, passes.holder.disable_stealing().is_none());
    holds(&rt, passes.other.disable_stealing().is_none());
}

#[test]
fn an_attempt_of_a_holder_is_refused_and_forgets_nothing(rt: HostRuntime) {
    for form in FORMS {
        let mut passes = opened_behind(&rt, rt.alloc(), form);
        holds(&rt, !steals(&mut passes.holder));
        holds(&rt, passes.holder.resting());
        holds(&rt, leave(&mut passes.holder));
        holds(&rt, steals(&mut passes.other));
    }
}
