ghost use Rattle.bpf_isa.specs.WellFormed.{IsWellFormed};

use crate::assembled::{insns_of, read, repeated};
use crate::checks::{is_told, same};
use bpf_asm::*;
use bpf_isa::{AluOp, Cond, Insn, Operand, Profile, Size, Width, encode};
use std::alloc::Global;
use std::process::Abort;

/// Answers yes where the sockets of anchor and waiter are equal.
const SAME_SOCKET: &[u8] =
    b"ldw r2 r1 0\nldw r1 r1 4\nmov64 r0 1\njeq64 r1 r2 1\nmov64 r0 0\nexit\n";

const SAME_SOCKET_NAMED: &[u8] =
    b"ldw r2 r1 0\nldw r1 r1 4\nmov64 r0 1\njeq64 r1 r2 @same\nmov64 r0 0\n:same\nexit\n";

/// The slots of `SAME_SOCKET`, as a listing of their bytes.
const SAME_SOCKET_SLOTS: [u64; 6] = [
    0x6112000000000000,
    0x6111040000000000,
    0xb700000001000000,
    0x1d21010000000000,
    0xb700000000000000,
    0x9500000000000000,
];

/// The instructions are listed so.
fn is_listed(rt: &impl Abort, alloc: Global, insns: &[Insn], due: &[u8])
    requires { IsWellFormed insns.now }
{
    let listed = disassemble(alloc, insns).expect(rt, "memory");
    same(rt, &listed.as_slice(), &due);
}

/// The bytes of these slots.
fn bytes_of(rt: &impl Abort, alloc: Global, slots: &[u64]) -> Vec<u8> {
    let mut bytes = Vec::new(alloc);
    for slot in slots {
        bytes
            .extend_from_slice(&slot.to_be_bytes())
            .expect(rt, "memory");
    }
    bytes
}

#[test]
fn a_policy_assembles_to_its_slots_and_is_listed_again(rt: HostRuntime) {
    let alloc = rt.alloc();
    let insns = insns_of(&rt, alloc, Profile::One, SAME_SOCKET);
    let bytes = encode(alloc, &insns).expect(&rt, "memory");
    same(&rt, &bytes, &bytes_of(&rt, alloc, &SAME_SOCKET_SLOTS));
    is_listed(&rt, alloc, &insns, SAME_SOCKET);
}

#[test]
fn a_name_stands_for_the_offset_to_its_slot(rt: HostRuntime) {
    let alloc = rt.alloc();
    let named = insns_of(&rt, alloc, Profile::One, SAME_SOCKET_NAMED);
    same(
        &rt,
        &named,
        &insns_of(&rt, alloc, Profile::One, SAME_SOCKET),
    );
}

/// Six instructions of profile 1, one of them of two slots.
const FORMS: &[u8] =
    b"arsh32 r9 -1\nneg64 r0\nlddw r1 r2 -32768\nwide r3 18446744073709551615\njal -2147483648\njsle32 r4 -2147483648 32767\n";

/// Forms that profile 2 has.
const FURTHER: &[u8] =
    b"ldsh r0 r1 4\nmovsx64 32 r0 r1\nmovsx32 16 r0 r1\nle 16 r0\nbe 32 r0\nswap 64 r0\n";

/// The instruction at this place.
fn has(rt: &impl Abort, insns: &[Insn], at: usize, due: Insn) {
    same(rt, &insns.get(at).copied(), &Some(due));
}

#[test]
fn each_form_is_read(rt: HostRuntime) {
    let alloc = rt.alloc();
    let insns = insns_of(&rt, alloc, Profile::One, FORMS);
    let shift = Insn::Alu {
        width: Width::W32,
        op: AluOp::Arsh,
        dst: 9,
        src: Operand::Imm(-1),
    };
    has(&rt, &insns, 0, shift);
    let load = Insn::Load {
        size: Size::DW,
        dst: 1,
        src: 2,
        off: -32768,
    };
    has(&rt, &insns, 2, load);
    let wide = Insn::Wide {
        dst: 3,
        low: -1,
        high: -1,
    };
    has(&rt, &insns, 3, wide);
    has(&rt, &insns, 4, Insn::Half);
    has(&rt, &insns, 5, Insn::GotoLong { off: -2147483648 });
    let jump = Insn::Jump {
        width: Width::W32,
        cond: Cond::Sle,
        dst: 4,
        src: Operand::Imm(-2147483648),
        off: 32767,
    };
    has(&rt, &insns, 6, jump);
    let further = insns_of(&rt, alloc, Profile::Two, FURTHER);
    is_listed(&rt, alloc, &further, FURTHER);
}

/// The text has this fault.
fn is_bad(rt: &impl Abort, alloc: Global, text: &[u8], line: u32, what: u8) {
    let fault = read(alloc, Profile::One, text).err();
    same(rt, &fault, &Some(AsmError::Format { line, what }));
}

/// Texts, and the first bad line of each with its lowest fault.
const BAD: &[(&[u8], u32, u8)] = &[
    (b"exit", 1, 1),
    (b"exit\n\texit\n", 2, 1),
    (b"exit \n", 1, 2),
    (b"\n", 1, 2),
    (b"add64 r1\n", 1, 2),
    (b"mov64 r0 01\n", 1, 2),
    (b"mov64 r0 -0\n", 1, 2),
    (b"mov64 r01 1\n", 1, 2),
    (b"wide r1 00\n", 1, 2),
    (b":Bad\n", 1, 2),
    (b"ja @\n", 1, 2),
    (b"le 16 r0\n", 1, 2),
    (b"mov64 r10 1\n", 1, 3),
    (b"neg64 r300\n", 1, 3),
    (b"mov64 r10 99999999999\n", 1, 3),
    (b"mov64 r0 2147483648\n", 1, 4),
    (b"ldb r0 r1 32768\n", 1, 4),
    (b"wide r1 -1\n", 1, 4),
    (b"wide r1 18446744073709551616\n", 1, 4),
    (b":a\nexit\n:a\n", 3, 5),
    (b":a\n:b\nexit\n:b\n:a\n", 4, 5),
    (b"ja @a\nexit\n", 1, 6),
    (b"ja @a\nmov64 r0 x\n:a\n", 2, 2),
    (b"ja @a\nmov64 r0 x\n", 1, 6),
    (b"ja 1\nwide r0 5\nexit\n", 1, 7),
    (b"wide r0 5\nja -2\n", 2, 7),
    (b"", 1, 9),
    (b":a\n", 2, 9),
    (b"exit\nexit\nldx\n", 3, 2),
];

#[test]
fn the_first_bad_line_is_named_with_its_lowest_fault(rt: HostRuntime) {
    for (text, line, what) in BAD {
        is_bad(&rt, rt.alloc(), text, *line, *what);
    }
}

#[test]
fn the_513th_slot_is_one_too_many(rt: HostRuntime) {
    let alloc = rt.alloc();
    let mut text = repeated(&rt, alloc, b"", b"exit\n", 512);
    let whole = insns_of(&rt, alloc, Profile::One, &text);
    same(&rt, &whole.len(), &512);
    text.extend_from_slice(b":end\nexit\n")
        .expect(&rt, "memory");
    is_bad(&rt, alloc, &text, 514, 8);
}

#[test]
fn a_name_too_far_away_goes_before_a_slot_too_many(rt: HostRuntime) {
    let alloc = rt.alloc();
    let mut text = repeated(&rt, alloc, b"ja @far\n", b"exit\n", 32768);
    text.extend_from_slice(b":far\n").expect(&rt, "memory");
    is_bad(&rt, alloc, &text, 1, 6);
}

#[test]
fn each_fault_is_told(rt: HostRuntime) {
    let alloc = rt.alloc();
    let format = AsmError::Format { line: 7, what: 2 };
    is_told(&rt, alloc, &format, "fault 2 on line 7");
    is_told(&rt, alloc, &AsmError::NoMemory, "out of memory");
}
