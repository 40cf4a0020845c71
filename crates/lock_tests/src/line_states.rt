//! States of the line, the steps that change them, and the policies that need no program.
mod recorder;

ghost use Rattle.std.specs.Prelude.{◌≡◌, ◌<◌, true, length};
ghost use Rattle.shfl_line.specs.Steps.{NamesBelow};

use crate::checks::{holds, same};
use shfl_line::*;
use std::alloc::Global;
use std::process::Abort;

// Whether each pass that the event names is one of so many.
fn is_named(event: &LineEvent, passes: usize) -> bool
    ensures { result ≡ true → NamesBelow passes event.now }
{
    match *event {
        LineEvent::Steal { pass, mode: _ } | LineEvent::Grab { pass, mode: _ } => {
            (pass as usize) < passes
        }
        LineEvent::Join { pass }
        | LineEvent::Leave { pass }
        | LineEvent::Release { pass }
        | LineEvent::Begin { pass }
        | LineEvent::Rest { pass }
        | LineEvent::Place { pass }
        | LineEvent::Keep { pass }
        | LineEvent::Give { pass } => (pass as usize) < passes,
        LineEvent::Pick { pass, who } => (pass as usize) < passes && (who as usize) < passes,
        LineEvent::Nothing => true,
    }
}

// How many of the events were admitted before the first that wasn't.
fn play(state: &mut LineState, events: &[LineEvent], limit: u16) -> usize
    requires { 0 < limit }
{
    for (i, event) in events.iter().enumerate() {
        if !is_named(event, state.mark().len()) || !state.apply(event, limit) {
            return i;
        }
    }
    events.len()
}

// What the state is but for its holders.
fn waits(state: &LineState, line: &[u32], hand: Option<u32>, role: Role, mark: &[u16]) -> bool {
    state.line() == line && state.hand() == hand && *state.role() == role && state.mark() == mark
}

const STEAL: LineEvent = LineEvent::Steal {
    pass: 0,
    mode: Mode::Write,
};

/// The state of a lock of so many passes.
fn opened(rt: &impl Abort, alloc: Global, passes: u32) -> LineState {
    LineState::open(alloc, passes).expect(rt, "memory")
}

/// So many of the events are admitted before the first that is not.
fn plays(rt: &impl Abort, state: &mut LineState, events: &[LineEvent], limit: u16, admitted: usize)
    requires { 0 < limit }
{
    same(rt, &play(state, events, limit), &admitted);
}

const JOIN: [LineEvent; 8] = [
    STEAL,
    LineEvent::Join { pass: 1 },
    LineEvent::Join { pass: 2 },
    LineEvent::Join { pass: 3 },
    LineEvent::Join { pass: 4 },
    LineEvent::Begin { pass: 1 },
    LineEvent::Pick { pass: 1, who: 3 },
    LineEvent::Pick { pass: 1, who: 2 },
];

const MOVE_UP: [LineEvent; 3] = [
    LineEvent::Place { pass: 1 },
    LineEvent::Keep { pass: 1 },
    LineEvent::Pick { pass: 1, who: 2 },
];

const GIVE: [LineEvent; 1] = [LineEvent::Give { pass: 1 }];

#[test]
fn a_waiter_is_moved_up_behind_the_group(rt: HostRuntime) {
    let mut state = opened(&rt, rt.alloc(), 5);
    plays(&rt, &mut state, &JOIN, 1024, 7);
    let walks = Role::Walk(1);
    holds(
        &rt,
        waits(&state, &[1, 2, 4], Some(3), walks, &[0, 1, 0, 0, 0]),
    );
    plays(&rt, &mut state, &MOVE_UP, 1024, 2);
    plays(&rt, &mut state, &GIVE, 1024, 1);
    let rests = Role::Rest(3);
    holds(
        &rt,
        waits(&state, &[1, 3, 2, 4], None, rests, &[0, 1, 0, 2, 0]),
    );
}

const FILL: [LineEvent; 6] = [
    STEAL,
    LineEvent::Join { pass: 1 },
    LineEvent::Join { pass: 2 },
    LineEvent::Begin { pass: 1 },
    LineEvent::Keep { pass: 1 },
    LineEvent::Keep { pass: 1 },
];

const LEAVE: [LineEvent; 6] = [
    LineEvent::Give { pass: 1 },
    LineEvent::Release { pass: 0 },
    LineEvent::Grab {
        pass: 1,
        mode: Mode::Write,
    },
    LineEvent::Leave { pass: 1 },
    LineEvent::Nothing,
    LineEvent::Begin { pass: 2 },
];

const REST: [LineEvent; 1] = [LineEvent::Rest { pass: 2 }];

#[test]
fn a_full_group_begins_no_round(rt: HostRuntime) {
    let mut state = opened(&rt, rt.alloc(), 3);
    plays(&rt, &mut state, &FILL, 2, 5);
    plays(&rt, &mut state, &LEAVE, 2, 5);
    same(&rt, &state.hold(), &[(1, Mode::Write)].as_slice());
    holds(&rt, waits(&state, &[2], None, Role::Rest(2), &[0, 0, 2]));
    plays(&rt, &mut state, &REST, 2, 1);
    same(&rt, state.role(), &Role::Nobody);
}

const READ: [LineEvent; 3] = [
    LineEvent::Steal {
        pass: 2,
        mode: Mode::Read,
    },
    LineEvent::Steal {
        pass: 0,
        mode: Mode::Read,
    },
    LineEvent::Steal {
        pass: 1,
        mode: Mode::Write,
    },
];

#[test]
fn readers_hold_together_in_rising_order(rt: HostRuntime) {
    let mut state = opened(&rt, rt.alloc(), 3);
    plays(&rt, &mut state, &READ, 1, 2);
    let readers = [(0, Mode::Read), (2, Mode::Read)];
    same(&rt, &state.hold(), &readers.as_slice());
}

#[test]
fn a_state_is_filled_from_outside(rt: HostRuntime) {
    let mut state = LineState::open(rt.alloc(), 3).expect(&rt, "memory");
    state.clear();
    state.add_hold(1, Mode::Write);
    state.add_line(2, 1);
    state.set(None, Role::Rest(2));
    same(&rt, &state.hold(), &[(1, Mode::Write)].as_slice());
    holds(&rt, waits(&state, &[2], None, Role::Rest(2), &[0, 0, 1]));
}

#[test]
fn words_have_their_layout(rt: HostRuntime) {
    let lock = LockWord {
        held: true,
        closed: true,
        readers: 2,
    };
    same(&rt, &lock.pack(), &0x2_0000_0101);
    let state = NodeState {
        ready: false,
        shuffler: true,
        parked: true,
        spin: true,
        batch: 5,
    };
    same(&rt, &state.pack(), &0x5_000e);
    let attr = Attr {
        socket: 1,
        prio: 2,
        class: 3,
        kind: 4,
    };
    same(&rt, &attr.pack(), &0x4_0003_0002_0001);
    same(&rt, &Attr::unpack(0x4_0003_0002_0001), &attr);
}

#[test]
fn each_bit_of_a_word_has_its_own_place(rt: HostRuntime) {
    for (bit, word) in [1, 2, 4, 8].iter().enumerate() {
        let state = NodeState {
            ready: bit == 0,
            shuffler: bit == 1,
            parked: bit == 2,
            spin: bit == 3,
            batch: 0,
        };
        same(&rt, &state.pack(), word);
    }
    for (bit, word) in [1, 256].iter().enumerate() {
        let lock = LockWord {
            held: bit == 0,
            closed: bit == 1,
            readers: 0,
        };
        same(&rt, &lock.pack(), word);
    }
}

#[test]
fn policies_answer_by_the_socket_or_always_alike(rt: HostRuntime) {
    let here = Attr::unpack(1);
    let there = Attr::unpack(2);
    holds(&rt, BySocket.should(&here, &here, 1));
    holds(&rt, !BySocket.should(&here, &there, 1));
    holds(&rt, Always.should(&here, &there, 1));
    holds(&rt, !Never.should(&here, &here, 1));
    holds(&rt, !Always.skip(&here, 1));
}

#[test]
fn want_of_memory_is_told(rt: HostRuntime) {
    let error = NoMemory;
    let told = format!(in rt.alloc(); "{error}").expect(&rt, "memory");
    same(&rt, &told.as_str(), &"there is not enough memory");
}
