//! Programs, in assembly, and what the verifier says of them.

use crate::assembled::{instructions, repeated};
use crate::checks::{holds, is_told, same};
use bpf_verifier::{NoMemory, Refusal, verify};
use std::alloc::Global;
use std::process::Abort;

/// Whether two sockets are the same, the first two fields of the context.
const SAME_SOCKET: &[u8] =
    b"ldw r2 r1 0\nldw r1 r1 4\nmov64 r0 1\njeq64 r1 r2 1\nmov64 r0 0\nexit\n";

/// The same with a jump back.
const LOOPED: &[u8] = b"ldw r2 r1 0\nldw r1 r1 4\nmov64 r0 1\njeq64 r1 r2 -1\nmov64 r0 0\nexit\n";

/// Register 3 has a number on one path, and the pointer on the other.
const DIFFERS: &[u8] = b"ldw r2 r1 0\nmov64 r3 0\njeq64 r2 0 1\nmov64 r3 r1\nmov64 r0 r3\nexit\n";

/// The program is accepted, and has so many slots.
fn is_accepted(rt: &impl Abort, alloc: Global, text: &[u8], slots: u32) {
    let program = verify(alloc, instructions(rt, alloc, text)).expect(rt, "accepted");
    same(rt, &program.slots(), &slots);
}

/// The program is refused so.
fn is_refused(rt: &impl Abort, alloc: Global, text: &[u8], refusal: Refusal) {
    match verify(alloc, instructions(rt, alloc, text)) {
        Ok(_) => holds(rt, false),
        Err(why) => same(rt, &why, &refusal),
    }
}

#[test]
fn the_socket_program_is_accepted(rt: HostRuntime) {
    let alloc = rt.alloc();
    is_accepted(&rt, alloc, SAME_SOCKET, 6);
    let program = verify(alloc, instructions(&rt, alloc, SAME_SOCKET)).expect(&rt, "accepted");
    let again = program.copy(alloc).expect(&rt, "memory");
    same(&rt, &again.insns(), &program.insns());
}

#[test]
fn jumps_lead_forward_and_stay_inside(rt: HostRuntime) {
    let alloc = rt.alloc();
    is_refused(&rt, alloc, LOOPED, Refusal::Back { slot: 3 });
    let outside = Refusal::OutOfProgram { slot: 0 };
    is_refused(&rt, alloc, b"mov64 r0 0\n", outside);
    // 65,536 slots, of which the low 16 bits are 0
    is_refused(&rt, alloc, b"jal 65536\nexit\n", outside);
}

#[test]
fn a_register_is_read_only_where_it_has_a_value(rt: HostRuntime) {
    let alloc = rt.alloc();
    let second = Refusal::NoValue { slot: 0, reg: 2 };
    is_refused(&rt, alloc, b"mov64 r0 r2\nexit\n", second);
    is_refused(&rt, alloc, b"add64 r3 r2\nexit\n", second);
    is_refused(&rt, alloc, DIFFERS, Refusal::NoValue { slot: 4, reg: 3 });
    let extended = Refusal::NoValue { slot: 0, reg: 0 };
    is_refused(&rt, alloc, b"movsx64 8 r0 r0\nexit\n", extended);
}

#[test]
fn the_pointer_is_no_number(rt: HostRuntime) {
    let alloc = rt.alloc();
    let returned = Refusal::PointerUse { slot: 1, reg: 0 };
    is_refused(&rt, alloc, b"mov64 r0 r1\nexit\n", returned);
    let used = Refusal::PointerUse { slot: 0, reg: 1 };
    is_refused(&rt, alloc, b"mov32 r0 r1\nexit\n", used);
    is_refused(&rt, alloc, b"swap 16 r1\nexit\n", used);
    is_accepted(&rt, alloc, b"mov64 r2 r1\nldw r0 r2 0\nexit\n", 3);
}

#[test]
fn loads_are_aligned_and_in_the_context(rt: HostRuntime) {
    let alloc = rt.alloc();
    let first = Refusal::BadLoad { slot: 0 };
    is_refused(&rt, alloc, b"ldw r0 r1 2\nexit\n", first);
    is_refused(&rt, alloc, b"ldw r0 r1 40\nexit\n", first);
    is_refused(&rt, alloc, b"ldw r0 r1 -4\nexit\n", first);
    is_refused(&rt, alloc, b"lddw r0 r1 36\nexit\n", first);
    is_accepted(&rt, alloc, b"lddw r0 r1 32\nexit\n", 2);
    is_accepted(&rt, alloc, b"ldsh r0 r1 4\nexit\n", 2);
    let second = Refusal::BadLoad { slot: 1 };
    is_refused(&rt, alloc, b"mov64 r2 0\nldw r0 r2 0\nexit\n", second);
}

#[test]
fn slots_that_nothing_reaches_have_good_edges(rt: HostRuntime) {
    let alloc = rt.alloc();
    is_accepted(&rt, alloc, b"mov64 r0 0\nja 1\nmov64 r0 r2\nexit\n", 4);
    let back = Refusal::Back { slot: 2 };
    is_refused(&rt, alloc, b"mov64 r0 0\nja 1\nja -3\nexit\n", back);
}

#[test]
fn the_longest_program_is_accepted(rt: HostRuntime) {
    let alloc = rt.alloc();
    let mut text = repeated(&rt, alloc, b"", b"mov64 r0 1\n", 511);
    text.extend_from_slice(b"exit\n").expect(&rt, "memory");
    is_accepted(&rt, alloc, &text, 512);
}

#[test]
fn each_fault_is_told(rt: HostRuntime) {
    let alloc = rt.alloc();
    let back = Refusal::Back { slot: 3 };
    is_told(&rt, alloc, &back, "the jump in slot 3 doesn't lead forward");
    let outside = Refusal::OutOfProgram { slot: 3 };
    is_told(&rt, alloc, &outside, "slot 3 leads out of the program");
    let unset = Refusal::NoValue { slot: 3, reg: 2 };
    is_told(
        &rt,
        alloc,
        &unset,
        "slot 3 reads register 2, which has no value",
    );
    let pointer = Refusal::PointerUse { slot: 3, reg: 2 };
    is_told(
        &rt,
        alloc,
        &pointer,
        "slot 3 reads the pointer in register 2 as a number",
    );
    let load = Refusal::BadLoad { slot: 3 };
    is_told(
        &rt,
        alloc,
        &load,
        "the load in slot 3 doesn't read the context",
    );
    is_told(&rt, alloc, &Refusal::NoMemory, "out of memory");
    is_told(&rt, alloc, &NoMemory, "out of memory");
}
