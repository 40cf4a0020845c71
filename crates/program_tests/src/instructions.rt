//! Instructions and their slots, each written as the sixteen digits of a listing.
use crate::checks::{holds, is_told, same};
use bpf_isa::*;
use std::alloc::Global;
use std::process::Abort;

const EXIT: u64 = 0x9500000000000000;

/// Answers yes where sockets of anchor and waiter are equal.
const SAME_SOCKET: [u64; 6] = [
    0x6112000000000000,
    0x6111040000000000,
    0xb700000001000000,
    0x1d21010000000000,
    0xb700000000000000,
    EXIT,
];

fn bytes_of(rt: &impl Abort, alloc: Global, slots: &[u64]) -> Vec<u8> {
    let mut bytes = Vec::new(alloc);
    for slot in slots {
        bytes
            .extend_from_slice(&slot.to_be_bytes())
            .expect(rt, "memory");
    }
    bytes
}

/// The slots are these instructions, and the instructions these slots.
fn is_read(rt: &impl Abort, alloc: Global, profile: Profile, slots: &[u64], due: &[Insn]) {
    let bytes = bytes_of(rt, alloc, slots);
    let insns = decode(alloc, profile, &bytes).expect(rt, "instructions");
    same(rt, &insns.as_slice(), &due);
    let again = encode(alloc, &insns).expect(rt, "memory");
    same(rt, &again, &bytes);
}

/// The slots are refused so.
fn is_refused(rt: &impl Abort, alloc: Global, profile: Profile, slots: &[u64], fault: IsaError) {
    let bytes = bytes_of(rt, alloc, slots);
    same(rt, &decode(alloc, profile, &bytes).err(), &Some(fault));
}

fn moved(imm: i32) -> Insn {
    Insn::Alu {
        width: Width::W64,
        op: AluOp::Mov,
        dst: 0,
        src: Operand::Imm(imm),
    }
}

fn loaded(dst: u8, off: i16) -> Insn {
    Insn::Load {
        size: Size::W,
        dst,
        src: 1,
        off,
    }
}

#[test]
fn a_policy_decodes_and_encodes_to_its_bytes(rt: HostRuntime) {
    let equal = Insn::Jump {
        width: Width::W64,
        cond: Cond::Eq,
        dst: 1,
        src: Operand::Reg(2),
        off: 1,
    };
    let due = [
        loaded(2, 0),
        loaded(1, 4),
        moved(1),
        equal,
        moved(0),
        Insn::Exit,
    ];
    is_read(&rt, rt.alloc(), Profile::One, &SAME_SOCKET, &due);
}

#[test]
fn numbers_are_signed_and_little_endian(rt: HostRuntime) {
    let slots = [
        0xb7000000f8ffffff,
        0x0500ffff00000000,
        0x06000000fdffffff,
        0x18000000ffffffff,
        0x0000000000000080,
    ];
    let wide = Insn::Wide {
        dst: 0,
        low: -1,
        high: -2147483648,
    };
    let due = [
        moved(-8),
        Insn::Goto { off: -1 },
        Insn::GotoLong { off: -3 },
        wide,
        Insn::Half,
    ];
    is_read(&rt, rt.alloc(), Profile::One, &slots, &due);
}

fn is_bad(rt: &impl Abort, alloc: Global, slots: &[u64], fault: IsaError) {
    is_refused(rt, alloc, Profile::One, slots, fault);
}

#[test]
fn a_fault_of_a_slot_is_named(rt: HostRuntime) {
    let alloc = rt.alloc();
    is_bad(&rt, alloc, &[], IsaError::Empty);
    let opcode = IsaError::BadOpcode { slot: 0 };
    is_bad(&rt, alloc, &[0x8500000001000000], opcode);
    is_bad(&rt, alloc, &[0x9110040000000000, EXIT], opcode);
    let register = IsaError::BadRegister { slot: 0 };
    is_bad(&rt, alloc, &[0xb70a000000000000, EXIT], register);
    let first = IsaError::Reserved { slot: 0 };
    is_bad(&rt, alloc, &[0xb710000000000000, EXIT], first);
    is_bad(&rt, alloc, &[0xbf00080000000000, EXIT], first);
    let second = IsaError::Reserved { slot: 1 };
    is_bad(&rt, alloc, &[EXIT, 0x950a000000000000], second);
}

#[test]
fn the_first_faulty_slot_is_named_with_its_first_fault(rt: HostRuntime) {
    let alloc = rt.alloc();
    let wide = 0x1800000005000000;
    let half = IsaError::HalfWide { slot: 0 };
    is_bad(&rt, alloc, &[0x0500010000000000, wide, 0, EXIT], half);
    is_bad(&rt, alloc, &[wide], half);
    let third = IsaError::HalfWide { slot: 2 };
    is_bad(&rt, alloc, &[wide, 0, 0x0500feff00000000], third);
    is_bad(&rt, alloc, &[wide, 0, 0x06000000feffffff], third);
    let reserved = IsaError::Reserved { slot: 1 };
    is_bad(&rt, alloc, &[wide, 0x0100000000000000], reserved);
}

#[test]
fn lengths_are_tested_first(rt: HostRuntime) {
    let alloc = rt.alloc();
    let mut bytes = vec![in alloc; 0u8; 4104].expect(&rt, "memory");
    let fault = decode(alloc, Profile::Two, &bytes).err();
    same(&rt, &fault, &Some(IsaError::TooLong));
    bytes.push(0).expect(&rt, "memory");
    let fault = decode(alloc, Profile::Two, &bytes).err();
    same(&rt, &fault, &Some(IsaError::OddLength));
}

fn extended(width: Width, bits: u8, src: u8) -> Insn {
    Insn::MovSigned {
        width,
        bits,
        dst: 0,
        src,
    }
}

fn swapped(order: Order, bits: u8) -> Insn {
    Insn::Swap {
        order,
        bits,
        dst: 0,
    }
}

#[test]
fn profile_two_extends_signs_and_swaps_bytes(rt: HostRuntime) {
    let slots = [
        0x8910040000000000,
        0xbf00080000000000,
        0xbc00100000000000,
        0xbf10200000000000,
        0xd400000010000000,
        0xdc00000020000000,
        0xd700000040000000,
    ];
    let signed = Insn::LoadSigned {
        size: Size::H,
        dst: 0,
        src: 1,
        off: 4,
    };
    let due = [
        signed,
        extended(Width::W64, 8, 0),
        extended(Width::W32, 16, 0),
        extended(Width::W64, 32, 1),
        swapped(Order::Little, 16),
        swapped(Order::Big, 32),
        swapped(Order::Swap, 64),
    ];
    is_read(&rt, rt.alloc(), Profile::Two, &slots, &due);
}

fn is_bad_extended(rt: &impl Abort, alloc: Global, slot: u64, fault: IsaError) {
    is_refused(rt, alloc, Profile::Two, &[slot], fault);
}

#[test]
fn profile_two_has_no_other_extensions(rt: HostRuntime) {
    let alloc = rt.alloc();
    let opcode = IsaError::BadOpcode { slot: 0 };
    is_bad_extended(&rt, alloc, 0x9910040000000000, opcode);
    is_bad_extended(&rt, alloc, 0xdf00000010000000, opcode);
    let reserved = IsaError::Reserved { slot: 0 };
    is_bad_extended(&rt, alloc, 0xbc00200000000000, reserved);
    is_bad_extended(&rt, alloc, 0xbf00010000000000, reserved);
    is_bad_extended(&rt, alloc, 0xd700000008000000, reserved);
}

#[test]
fn a_move_does_not_read_its_destination(rt: HostRuntime) {
    let add = Insn::Alu {
        width: Width::W64,
        op: AluOp::Add,
        dst: 3,
        src: Operand::Reg(4),
    };
    let mov = Insn::Alu {
        width: Width::W64,
        op: AluOp::Mov,
        dst: 3,
        src: Operand::Reg(4),
    };
    holds(
        &rt,
        add.reads(3) && add.reads(4) && !mov.reads(3) && mov.reads(4),
    );
    same(&rt, &mov.written(), &Some(3));
    holds(&rt, Insn::Exit.reads(0) && !Insn::Exit.reads(1));
    same(&rt, &Insn::Exit.written(), &None);
    same(&rt, &Size::H.bytes(), &2);
    same(&rt, &Insn::GotoLong { off: -5 }.jump_offset(), &Some(-5));
    same(&rt, &target(3, 2147483647), &2147483651);
    holds(&rt, Insn::Half.is_half() && !Insn::Exit.is_wide());
}

#[test]
fn each_fault_is_told(rt: HostRuntime) {
    let alloc = rt.alloc();
    is_told(&rt, alloc, &IsaError::Empty, "no instructions");
    is_told(&rt, alloc, &IsaError::OddLength, "an unfinished slot");
    is_told(&rt, alloc, &IsaError::TooLong, "more than 512 slots");
    let opcode = IsaError::BadOpcode { slot: 3 };
    is_told(&rt, alloc, &opcode, "unknown opcode at slot 3");
    let register = IsaError::BadRegister { slot: 3 };
    is_told(&rt, alloc, &register, "register above 9 at slot 3");
    let reserved = IsaError::Reserved { slot: 3 };
    is_told(&rt, alloc, &reserved, "reserved field at slot 3");
    let half = IsaError::HalfWide { slot: 3 };
    is_told(&rt, alloc, &half, "half a wide load at slot 3");
    is_told(&rt, alloc, &IsaError::NoMemory, "out of memory");
    is_told(&rt, alloc, &NoMemory, "out of memory");
}
