//! Worked runs of a lock without values, on one thread.
use crate::checks::{holds, is_told, same};
use crate::driven::{Driven, drive, opened};
use shared_tests::{FAR, FORMS, PLAIN};
use shfl_core::{Nap, Phase, Watch};
use shfl_line::{Attr, Form, Mode};
use shfl_table::Busy;
use std::alloc::Global;
use std::process::Abort;

/// The second pass waits while the first one holds the lock, and has it after eight steps more.
fn take_turns(rt: &impl Abort, first: &mut Driven, second: &mut Driven) {
    holds(rt, first.acquire(Mode::Write));
    first.steps(1);
    holds(rt, first.held());
    let _ = second.acquire(Mode::Write);
    second.steps(4);
    holds(rt, !second.held());
    holds(rt, first.release());
    first.steps(1);
    same(rt, &first.phase(), &Phase::Idle);
    second.steps(7);
    holds(rt, !second.held());
    second.steps(1);
    holds(rt, second.held());
}

#[test]
fn two_passes_take_turns(rt: HostRuntime) {
    for form in FORMS {
        let (board, passes) = opened(&rt, rt.alloc(), form, &[PLAIN, PLAIN]);
        let mut passes = drive(&rt, rt.alloc(), form, &board, passes);
        let mut second = passes.pop().expect(&rt, "a second pass");
        let mut first = passes.pop().expect(&rt, "a first pass");
        take_turns(&rt, &mut first, &mut second);
    }
}

/// Begins to take the lock, and queues behind the others.
fn queue(pass: &mut Driven, socket: u16) {
    let _ = pass.acquire(Mode::Write);
    pass.steps_by_socket(socket, 4);
}

/// Each pass is queued behind the first one, which holds the lock.
fn queue_all(passes: &mut [Driven], sockets: &[u16]) {
    for (pass, socket) in passes.iter_mut().zip(sockets) {
        queue(pass, *socket);
    }
}

/// Who comes to hold the lock, in order, where each new holder gives it back at once.
fn holders(passes: &mut [Driven], sockets: &[u16]) -> [usize; 6] {
    let mut order = [9usize; 6];
    let mut count = 0;
    for _ in 0..400 {
        for number in 0..passes.len() {
            let pass = &mut passes[number];
            if pass.release() && count < 6 {
                order[count] = number;
                count += 1;
            }
            if let Some(socket) = sockets.get(number) {
                pass.steps_by_socket(*socket, 1);
            }
        }
    }
    order
}

const SOCKETS: [u16; 6] = [0, 0, 0, 1, 0, 1];

const ATTRS: [Attr; 6] = [PLAIN, PLAIN, PLAIN, FAR, PLAIN, FAR];

/// Pass 1 groups 2 and 4, which are on its socket, while 0 holds the lock; the relink of 4 is half done when 0 gives it back.
#[test]
fn grouped_passes_hold_in_turn(rt: HostRuntime) {
    for form in [Form::Spin, Form::Rw] {
        let (board, passes) = opened(&rt, rt.alloc(), form, &ATTRS);
        let mut passes = drive(&rt, rt.alloc(), form, &board, passes);
        queue_all(&mut passes, &SOCKETS);
        let grouping = passes.get_mut(1).expect(&rt, "pass 1");
        grouping.steps_by_socket(0, 22);
        same(&rt, &holders(&mut passes, &SOCKETS), &[0, 1, 2, 4, 3, 5]);
    }
}

/// Begins to take the lock, and makes so many steps.
fn begin(pass: &mut Driven, count: u32) {
    let _ = pass.acquire(Mode::Write);
    pass.steps(count);
}

/// The first pass holds the lock, the second waits at the queue's head, and the third has parked behind it, before the last.
fn park_third(passes: &mut [Driven]) {
    for (number, pass) in passes.iter_mut().enumerate() {
        begin(pass, if number == 2 { 7 } else { 4 });
    }
}

fn wake_the_grouped(rt: &impl Abort, head: &mut Driven, parked: &mut Driven) {
    same(rt, &parked.nap(), &Nap::Hear);
    head.steps_by_socket(0, 5);
    same(rt, &head.watch(), &Watch::Mark { whom: 2 });
    head.steps(1);
    same(rt, &head.nap(), &Nap::Ring { whom: 2 });
    parked.steps(1);
    same(rt, &parked.nap(), &Nap::Hear);
    head.steps(1);
    parked.steps(1);
    same(rt, &parked.nap(), &Nap::Rouse);
    parked.steps(1);
    same(rt, &parked.nap(), &Nap::Awake);
    same(rt, &parked.phase(), &Phase::Look);
}

fn step_if_awake(head: &mut Driven) {
    if matches!(head.nap(), Nap::Awake) {
        head.steps(1);
    }
}

/// Steps until it is to ring somebody, for a while at most.
fn step_while_awake(head: &mut Driven) {
    for _ in 0..20 {
        step_if_awake(head);
    }
}

fn wake_the_ready(rt: &impl Abort, holder: &mut Driven, head: &mut Driven, parked: &mut Driven) {
    holds(rt, holder.release());
    holder.steps(1);
    step_while_awake(head);
    same(rt, &head.nap(), &Nap::Ring { whom: 2 });
    holds(rt, head.held());
    holds(rt, head.moving());
    holds(rt, !head.resting());
    holds(rt, !head.release());
    head.steps(1);
    holds(rt, !head.moving());
    parked.steps(2);
    same(rt, &parked.nap(), &Nap::Awake);
    parked.steps(1);
    holds(rt, !matches!(parked.phase(), Phase::Look));
}

/// The third of four passes parks, and wakes: grouped by the head, or ready.
fn parks_and_wakes(rt: &impl Abort, alloc: Global, form: Form, grouped: bool) {
    let (board, passes) = opened(rt, alloc, form, &[PLAIN; 4]);
    let mut passes = drive(rt, alloc, form, &board, passes);
    park_third(&mut passes);
    let _last = passes.pop();
    let mut parked = passes.pop().expect(rt, "a parked pass");
    let mut head = passes.pop().expect(rt, "a head");
    let mut holder = passes.pop().expect(rt, "a holder");
    if grouped {
        wake_the_grouped(rt, &mut head, &mut parked);
    } else {
        wake_the_ready(rt, &mut holder, &mut head, &mut parked);
    }
}

#[test]
fn a_parked_waiter_wakes(rt: HostRuntime) {
    for form in [Form::Park, Form::RwPark] {
        parks_and_wakes(&rt, rt.alloc(), form, true);
        parks_and_wakes(&rt, rt.alloc(), form, false);
    }
}

/// The pass holds the lock at once.
fn holds_at_once(rt: &impl Abort, pass: &mut Driven, mode: Mode) {
    same(rt, &pass.attempt(mode), &Ok(()));
}

/// This word refuses the pass.
fn is_refused(rt: &impl Abort, pass: &mut Driven, mode: Mode, word: u64) {
    same(rt, &pass.attempt(mode), &Err(word));
}

/// The first pass holds the lock at once; the second is refused by the word until a reader holds it.
fn attempt_both(rt: &impl Abort, first: &mut Driven, second: &mut Driven) {
    holds_at_once(rt, first, Mode::Write);
    is_refused(rt, second, Mode::Write, 1);
    is_refused(rt, second, Mode::Read, 1);
    first.give_back();

    // The reader's count was taken back.
    holds_at_once(rt, first, Mode::Read);
    is_refused(rt, second, Mode::Write, 0x1_0000_0000);
    holds_at_once(rt, second, Mode::Read);
}

#[test]
fn an_attempt_holds_at_once_or_names_the_word(rt: HostRuntime) {
    let (board, passes) = opened(&rt, rt.alloc(), Form::Rw, &[PLAIN, PLAIN]);
    let mut passes = drive(&rt, rt.alloc(), Form::Rw, &board, passes);
    let mut second = passes.pop().expect(&rt, "a second pass");
    let mut first = passes.pop().expect(&rt, "a first pass");
    attempt_both(&rt, &mut first, &mut second);
}

#[test]
fn a_busy_lock_is_told(rt: HostRuntime) {
    let told = "the lock is held, or others wait for it";
    is_told(&rt, rt.alloc(), &Busy { word: 1 }, told);
}
