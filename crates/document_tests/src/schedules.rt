//! Documents that are schedules, and where others go wrong.
use crate::checks::{holds, is_told, same};
use bpf_isa::Profile;
use shfl_line::Form;
use shfl_sched::{Rule, ScheduleError, read_schedule};
use std::alloc::Global;
use std::process::Abort;

fn fault(alloc: Global, bytes: &[u8]) -> Option<(u32, u8)> {
    match read_schedule(alloc, bytes) {
        Ok(_) => None,
        Err(ScheduleError::Format { line, what }) => Some((line, what)),
        Err(ScheduleError::NoMemory) => Some((0, 0)),
    }
}

/// The lines of a schedule, and what is due in front of each.
const FOUR_EVENTS: &[(u32, &str, Option<(u32, u8)>)] = &[
    (1, "shfl-line 1", Some((1, 2))),
    (2, "form spin", Some((2, 3))),
    (3, "limit 1024", Some((3, 4))),
    (4, "policy socket", Some((4, 5))),
    (5, "pass 0 0 0 0", Some((5, 7))),
    (6, "events", Some((6, 7))),
    (7, "write 0", None),
    (8, "step 0", None),
    (9, "free 0", None),
    (10, "step 0", None),
];

/// The line is put behind the text, which has it as its bad one until it ends.
fn push_line(rt: &impl Abort, alloc: Global, text: &mut Vec<u8>, line: u32, says: &str) {
    for byte in says.as_bytes() {
        text.push(*byte).ok().expect(rt, "memory");
        same(rt, &fault(alloc, text.as_slice()), &Some((line, 1)));
    }
    text.push(b'\n').ok().expect(rt, "memory");
}

#[test]
fn a_prefix_is_whole_behind_the_line_events_alone(rt: HostRuntime) {
    let alloc = rt.alloc();
    let mut text: Vec<u8> = Vec::new(alloc);
    for (line, says, due) in FOUR_EVENTS {
        same(&rt, &fault(alloc, text.as_slice()), due);
        push_line(&rt, alloc, &mut text, *line, says);
    }
    let schedule = read_schedule(alloc, text.as_slice()).expect(&rt, "a schedule");
    same(&rt, &schedule.version, &1);
    same(&rt, &schedule.limit, &1024);
    same(&rt, &schedule.events.len(), &4);
}

/// The faults of the lines up to the policy.
const BAD_FRONTS: &[(&str, u32, u8)] = &[
    ("shfl-line 1\nform\tspin\n", 2, 1),
    ("shfl-line 3\n", 1, 2),
    ("shfl-line  1\n", 1, 2),
    ("shfl-line 1 \n", 1, 2),
    ("shfl-line 2\n", 2, 10),
    ("shfl-line 2\nprofile 3\n", 2, 10),
    ("shfl-line 2\nform spin\n", 2, 10),
    ("shfl-line 2\nprofile 1\n", 3, 3),
    ("shfl-line 2\nprofile 1\nform spin\n", 4, 4),
    ("shfl-line 1\nform shared\n", 2, 3),
    ("shfl-line 1\nform rw-park\nlimit 0\n", 3, 4),
    ("shfl-line 1\nform park\nlimit 1025\n", 3, 4),
    ("shfl-line 1\nform rw\nlimit 01\n", 3, 4),
    ("shfl-line 1\nform rw\nlimit 99999999999999999999\n", 3, 4),
    ("shfl-line 1\nform rw\nlimit\n", 3, 4),
];

/// The faults of the lines from the policy on, behind a form of readers and writers.
const BAD_LINES: &[(&str, u32, u8)] = &[
    ("policy some\n", 4, 5),
    ("policy never -\n", 4, 5),
    ("policy program -\n", 4, 5),
    ("policy program  -\n", 4, 5),
    ("policy program - \n", 4, 5),
    ("policy program - 9\n", 4, 5),
    ("policy program 9500000000000000 9g\n", 4, 5),
    ("policy program - 9500000000000000\n", 4, 6),
    ("policy program 00 -\n", 4, 6),
    ("policy always\nevents\n", 5, 7),
    ("policy always\npass 0 0 0\n", 5, 7),
    ("policy always\npass 0 0 0 65536\n", 5, 7),
    ("policy always\npass 0 0 0 0\nread 0\n", 6, 7),
    (
        "policy always\npass 0 0 0 0\nevents\nread 0\nread 1\n",
        8,
        8,
    ),
    ("policy always\npass 0 0 0 0\nevents\nwrite 00\n", 7, 8),
    ("policy always\npass 0 0 0 0\nevents\nfree 0 \n", 7, 8),
    ("policy always\npass 0 0 0 0\nevents\nstep\n", 7, 8),
    ("policy always\npass 0 0 0 0\nevents\nevents\n", 7, 8),
    ("policy always\npass 0 0 0 0\nevents\nstep 1\nstep", 7, 8),
];

/// The front of a schedule of readers and writers.
const SHARED: &[u8] = b"shfl-line 1\nform rw\nlimit 1\n";

/// Where writers are alone, nobody reads.
const READS: &[&str] = &[
    "shfl-line 1\nform spin\nlimit 1\npolicy always\npass 0 0 0 0\nevents\nread 0\n",
    "shfl-line 1\nform park\nlimit 1\npolicy always\npass 0 0 0 0\nevents\nread 0\n",
];

/// What stands behind a front.
fn behind(rt: &impl Abort, alloc: Global, front: &[u8], rest: &[u8]) -> Vec<u8> {
    let mut text = Vec::from_slice(alloc, front).expect(rt, "memory");
    text.extend_from_slice(rest).expect(rt, "memory");
    text
}

/// The text behind the front has this fault.
fn is_bad(rt: &impl Abort, alloc: Global, front: &[u8], rest: &[u8], line: u32, what: u8) {
    let text = behind(rt, alloc, front, rest);
    same(rt, &fault(alloc, text.as_slice()), &Some((line, what)));
}

#[test]
fn the_first_bad_line_has_its_lowest_fault(rt: HostRuntime) {
    let alloc = rt.alloc();
    for (text, line, what) in BAD_FRONTS {
        same(&rt, &fault(alloc, text.as_bytes()), &Some((*line, *what)));
    }
    for (lines, line, what) in BAD_LINES {
        is_bad(&rt, alloc, SHARED, lines.as_bytes(), *line, *what);
    }
    for text in READS {
        same(&rt, &fault(alloc, text.as_bytes()), &Some((7, 8)));
    }
}

/// The front, and then the line so many times.
fn repeated(rt: &impl Abort, alloc: Global, front: &[u8], line: &[u8], times: u32) -> Vec<u8> {
    let mut text = Vec::from_slice(alloc, front).expect(rt, "memory");
    for _ in 0..times {
        text.extend_from_slice(line).expect(rt, "memory");
    }
    text
}

const NO_PASSES: &[u8] = b"shfl-line 1\nform spin\nlimit 2\npolicy never\n";

#[test]
fn a_line_more_than_there_is_room_for(rt: HostRuntime) {
    let alloc = rt.alloc();
    let passes = repeated(&rt, alloc, NO_PASSES, b"pass 65535 0 0 65535\n", 64);
    is_bad(&rt, alloc, &passes, b"pass 0 0 0 0\n", 69, 7);
    let front = behind(&rt, alloc, &passes, b"events\n");
    let whole = repeated(&rt, alloc, &front, b"step 63\n", 65_536);
    is_bad(&rt, alloc, &whole, b"step 0\nstep 0\n", 65_606, 9);
    is_bad(&rt, alloc, &whole, b"step 64\n", 65_606, 8);
    let schedule = read_schedule(alloc, &whole).expect(&rt, "a schedule");
    same(&rt, &schedule.passes.len(), &64);
    same(&rt, &schedule.events.len(), &65_536);
}

/// A program with a sign extension, which there is in profile two alone, and the rest of a schedule.
const EXTENDS: &[u8] =
    b"form rw-park\nlimit 7\npolicy program B700000001000000bf000800000000009500000000000000 -\npass 1 2 3 4\nevents\nread 0\n";

/// The policy has the name 0, a program that tells whom to move up, and none that skips.
fn moves_up(rt: &impl Abort, rule: &Rule) {
    match rule {
        Rule::Program(policy) => {
            same(rt, &policy.name(), &0);
            holds(rt, policy.should_program().is_some());
            holds(rt, policy.skip_program().is_none());
        }
        _ => holds(rt, false),
    }
}

#[test]
fn a_program_is_judged_by_the_profile_of_its_document(rt: HostRuntime) {
    let alloc = rt.alloc();
    is_bad(&rt, alloc, b"shfl-line 2\nprofile 1\n", EXTENDS, 5, 6);
    let text = behind(&rt, alloc, b"shfl-line 2\nprofile 2\n", EXTENDS);
    let schedule = read_schedule(alloc, &text).expect(&rt, "a schedule");
    same(&rt, &schedule.profile, &Profile::Two);
    same(&rt, &schedule.form, &Form::RwPark);
    moves_up(&rt, &schedule.rule);
}

#[test]
fn each_fault_is_told(rt: HostRuntime) {
    let alloc = rt.alloc();
    let format = ScheduleError::Format { line: 7, what: 2 };
    is_told(&rt, alloc, &format, "line 7: fault 2");
    is_told(&rt, alloc, &ScheduleError::NoMemory, "out of memory");
}
