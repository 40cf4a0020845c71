use crate::checks::{holds, is_told, same};
use bpf_isa::Profile;
use doc_text::Fault;
use policy_text::*;
use shfl_line::Attr;
use std::alloc::Global;
use std::process::Abort;

/// The heading names these, and is written so.
fn is_heading(rt: &impl Abort, alloc: Global, text: &[u8], version: u8, profile: Profile) {
    let rest: &[u8] = b"";
    let due = Ok((version, profile, rest));
    same(rt, &heading_of(b"shfl-line", 10, text), &due);
    let mut out = Vec::new(alloc);
    push_heading(&mut out, b"shfl-line", version, profile).expect(rt, "memory");
    same(rt, &out.as_slice(), &text);
}

/// The heading has this fault.
fn is_refused(rt: &impl Abort, text: &[u8], line: u32, what: u8) {
    let due = Err(Fault { line, what });
    same(rt, &heading_of(b"shfl-line", 10, text), &due);
}

#[test]
fn a_heading_names_version_and_profile(rt: HostRuntime) {
    let alloc = rt.alloc();
    is_heading(&rt, alloc, b"shfl-line 1\n", 1, Profile::One);
    is_heading(&rt, alloc, b"shfl-line 2\nprofile 1\n", 2, Profile::One);
    is_heading(&rt, alloc, b"shfl-line 2\nprofile 2\n", 2, Profile::Two);
    is_refused(&rt, b"shfl-line 2\n", 2, 10);
    is_refused(&rt, b"shfl-line 2\nprofile 3\n", 2, 10);
    is_refused(&rt, b"shfl-line 2\nprofile 1", 2, 1);
    is_refused(&rt, b"shfl-line  1\n", 1, 2);
    is_refused(&rt, b"syncord-trace 1\n", 1, 2);
}

const ATTR: Attr = Attr {
    socket: 1,
    prio: 0,
    class: 65535,
    kind: 7,
};

/// Attributes, a version, no program and a program.
const WRITTEN: &[u8] = b"pass 1 0 65535 7\n 2 profile 2 - 9500000000000000";

#[test]
fn attributes_and_programs_are_read_and_written(rt: HostRuntime) {
    let alloc = rt.alloc();
    same(&rt, &attr_of(b"pass", b"pass 1 0 65535 7"), &Some(ATTR));
    same(&rt, &attr_of(b"pass", b"pass 1 0 65536 7"), &None);
    let odd = source_of(alloc, b"-", b"9").expect(&rt, "memory");
    holds(&rt, odd.is_none());
    let read = source_of(alloc, b"-", b"9500000000000000").expect(&rt, "memory");
    let source = read.expect(&rt, "a source");
    let mut out = Vec::new(alloc);
    push_attr(&mut out, b"pass", &ATTR).expect(&rt, "memory");
    push_version(&mut out, 2, Profile::Two).expect(&rt, "memory");
    push_program(alloc, &mut out, &source.should).expect(&rt, "memory");
    push_program(alloc, &mut out, &source.skip).expect(&rt, "memory");
    same(&rt, &out.as_slice(), &WRITTEN);
    same(&rt, &accepts(alloc, Profile::One, &source), &Ok(false));
}

#[test]
fn want_of_memory_is_told(rt: HostRuntime) {
    is_told(&rt, rt.alloc(), &NoMemory, "out of memory");
}
