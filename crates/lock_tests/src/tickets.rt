//! Tickets of one lock, on one thread.
use crate::checks::{holds, same};
use bpf_isa::Profile;
use shared_tests::FORMS;
use shfl_line::{Form, Mode};
use shfl_ticket::{ShflVerdict, ShflWatch, Ticket, ask_told, open, verdict_told, watch_told};
use std::alloc::Global;
use std::process::Abort;

/// Yes where the sockets are the same.
const SAME_SOCKET: [u8; 48] = [
    0x61, 0x12, 0, 0, 0, 0, 0, 0, 0x61, 0x11, 4, 0, 0, 0, 0, 0, 0xb7, 0, 0, 0, 1, 0, 0, 0, 0x1d,
    0x21, 1, 0, 0, 0, 0, 0, 0xb7, 0, 0, 0, 0, 0, 0, 0, 0x95, 0, 0, 0, 0, 0, 0, 0,
];

/// No.
const NEVER: [u8; 16] = [0xb7, 0, 0, 0, 0, 0, 0, 0, 0x95, 0, 0, 0, 0, 0, 0, 0];

/// Register 0 is returned before it is written.
const NO_VALUE: [u8; 8] = [0x95, 0, 0, 0, 0, 0, 0, 0];

/// Four tickets of one lock.
#[derive(Drop)]
struct Four {
    first: Ticket,
    second: Ticket,
    third: Ticket,
    fourth: Ticket,
}

/// The last of the tickets that are left.
pub(crate) fn last(rt: &impl Abort, tickets: &mut Vec<Ticket>) -> Ticket {
    tickets.pop().expect(rt, "a ticket")
}

/// The tickets of a lock whose passes are on these sockets.
fn open_four(rt: &impl Abort, alloc: Global, form: Form, sockets: [u64; 4]) -> Four {
    let mut tickets = open(alloc, &sockets, form, 1024).ok().expect(rt, "a lock");
    let fourth = last(rt, &mut tickets);
    let third = last(rt, &mut tickets);
    let second = last(rt, &mut tickets);
    let first = last(rt, &mut tickets);
    Four {
        first,
        second,
        third,
        fourth,
    }
}

/// So many steps that choose no.
fn steps(ticket: &mut Ticket, count: u32) {
    for _ in 0..count {
        let _ = ticket.step(false);
    }
}

/// Whether an idle pass enters, and holds at once.
fn enters(ticket: &mut Ticket) -> bool {
    ticket.idle() && ticket.enter(Mode::Write)
}

/// Whether a pass that rests leaves, and is idle at once.
fn leaves(ticket: &mut Ticket) -> bool {
    ticket.resting() && !ticket.leave()
}

/// Whether an idle pass has the lock by an attempt.
fn wins(ticket: &mut Ticket) -> bool {
    ticket.attempt(Mode::Write)
}

/// Begins to take the lock, and queues behind the others.
fn queue_up(ticket: &mut Ticket) {
    let _ = ticket.acquire(Mode::Write);
    steps(ticket, 4);
}

/// The first holds the lock, and the others are queued behind it. A round doesn't ask about the queue's end.
fn queued(rt: &impl Abort, alloc: Global, form: Form) -> Four {
    queued_on(rt, alloc, form, [0; 4])
}

/// The same, with the passes on these sockets.
fn queued_on(rt: &impl Abort, alloc: Global, form: Form, sockets: [u64; 4]) -> Four {
    let mut tickets = open_four(rt, alloc, form, sockets);
    let _ = enters(&mut tickets.first);
    queue_up(&mut tickets.second);
    queue_up(&mut tickets.third);
    queue_up(&mut tickets.fourth);
    tickets
}

#[test]
fn tickets_come_in_order(rt: HostRuntime) {
    let tickets = open_four(&rt, rt.alloc(), Form::Spin, [5, 6, 7, 8]);
    same(&rt, &tickets.first.number(), &0);
    same(&rt, &tickets.second.number(), &1);
    same(&rt, &tickets.third.number(), &2);
    same(&rt, &tickets.fourth.number(), &3);
}

/// The first gives the lock back, and the second, which waits, has it then.
fn hand_on(rt: &impl Abort, tickets: &mut Four) {
    steps(&mut tickets.second, 60);
    holds(rt, tickets.first.held() && !tickets.second.held());
    holds(rt, tickets.first.release());
    steps(&mut tickets.first, 2);
    holds(rt, tickets.first.idle());
    steps(&mut tickets.second, 60);
    holds(rt, tickets.second.held() && !tickets.third.held());
}

#[test]
fn the_second_has_the_lock_after_the_first(rt: HostRuntime) {
    for form in FORMS {
        let mut tickets = queued(&rt, rt.alloc(), form);
        hand_on(&rt, &mut tickets);
    }
}

/// Whom the ticket makes ready within so many steps; 0 where it is nobody.
fn made_ready(ticket: &mut Ticket, count: u32) -> u32 {
    let mut whom = 0;
    for _ in 0..count {
        let watched = watch_told(ticket.watch());
        if watched.kind == 3 {
            whom = watched.whom;
        }
        let _ = ticket.step(false);
    }
    whom
}

#[test]
fn a_step_tells_whom_it_makes_ready(rt: HostRuntime) {
    let mut tickets = queued(&rt, rt.alloc(), Form::Spin);
    holds(&rt, leaves(&mut tickets.first));
    let looks = ShflWatch { whom: 0, kind: 1 };
    same(&rt, &watch_told(tickets.third.watch()), &looks);
    same(&rt, &made_ready(&mut tickets.second, 60), &2);
    holds(&rt, tickets.second.held());
}

#[test]
fn an_attempt_has_the_lock_at_once_or_not_at_all(rt: HostRuntime) {
    let mut tickets = open_four(&rt, rt.alloc(), Form::Rw, [0; 4]);
    holds(&rt, wins(&mut tickets.first));
    holds(&rt, !wins(&mut tickets.second));
    holds(&rt, leaves(&mut tickets.first));
    holds(&rt, wins(&mut tickets.second));
}

/// Whether any of the questions of so many steps is answered yes.
fn says_yes(ticket: &mut Ticket, count: u32) -> bool {
    let mut yes = false;
    for _ in 0..count {
        let asked = ask_told(ticket.ask()).kind != 0;
        let answer = ticket.answer();
        yes = yes || asked && answer;
        let _ = ticket.step(answer);
    }
    yes
}

/// A policy is attached, whose first program is this one; it has no second one.
fn attach(rt: &impl Abort, alloc: Global, ticket: &mut Ticket, program: &[u8]) {
    let attached = ticket.attach(alloc, Profile::One, program, &[]);
    holds(rt, attached.is_ok());
}

#[test]
fn a_pass_answers_by_the_policy_attached_last(rt: HostRuntime) {
    let alloc = rt.alloc();
    let mut grouped = queued(&rt, alloc, Form::Spin);
    attach(&rt, alloc, &mut grouped.second, &SAME_SOCKET);
    holds(&rt, says_yes(&mut grouped.second, 40));
    let mut alone = queued(&rt, alloc, Form::Spin);
    attach(&rt, alloc, &mut alone.second, &SAME_SOCKET);
    attach(&rt, alloc, &mut alone.second, &NEVER);
    holds(&rt, !says_yes(&mut alone.second, 40));
}

/// Whether the second pass, on one socket, moves up the third, on another, or on the same.
fn groups_the_third(rt: &impl Abort, alloc: Global, sockets: [u64; 4]) -> bool {
    let mut tickets = queued_on(rt, alloc, Form::Spin, sockets);
    attach(rt, alloc, &mut tickets.second, &SAME_SOCKET);
    says_yes(&mut tickets.second, 40)
}

#[test]
fn a_waiter_is_moved_up_where_its_own_socket_is_that_of_the_pass_that_asks(rt: HostRuntime) {
    let alloc = rt.alloc();
    holds(&rt, groups_the_third(&rt, alloc, [0, 1, 1, 0]));
    holds(&rt, !groups_the_third(&rt, alloc, [0, 1, 0, 1]));
    // whatever the socket of the first pass is
    holds(&rt, groups_the_third(&rt, alloc, [1, 0, 0, 1]));
    holds(&rt, !groups_the_third(&rt, alloc, [1, 0, 1, 0]));
}

/// The programs are attached to the ticket, and this is told: the fault of the first slot, and the program that has it.
fn is_judged(
    rt: &impl Abort,
    alloc: Global,
    ticket: &mut Ticket,
    programs: [&[u8]; 2],
    fault: u8,
    hook: u8,
) {
    let told = verdict_told(ticket.attach(alloc, Profile::One, programs[0], programs[1]));
    let due = ShflVerdict {
        slot: 0,
        fault,
        hook,
        register: 0,
    };
    same(rt, &told, &due);
}

#[test]
fn a_refused_program_is_told_and_the_old_policy_stays(rt: HostRuntime) {
    let alloc = rt.alloc();
    let mut tickets = queued(&rt, alloc, Form::Spin);
    is_judged(&rt, alloc, &mut tickets.second, [&SAME_SOCKET, &[]], 0, 0);
    is_judged(&rt, alloc, &mut tickets.second, [&NEVER, &NO_VALUE], 10, 1);
    holds(&rt, says_yes(&mut tickets.second, 40));
}
