//! Bytes to instructions: the lengths, then slot after slot, up to the first fault.
ghost use Rattle.std.specs.Prelude.{◌≡◌, ◌+◌, ◌*◌, ◌/◌, ◌<◌, ◌≤◌, ℕ, List, length, IfOk, slice_index_or, false, not, ◌&&◌, ◌==◌};
ghost use Rattle.bpf_isa.specs.Slots.{is_second_half, MarksHalves};
ghost use Rattle.bpf_isa.specs.Faults.{Gives};
ghost use Rattle.bpf_isa.specs.Decoding.{half_at, into_half, half_in, wide_in, slot_in, slots_from, decoding, HasSlots};
ghost use Rattle.bpf_isa.specs.Encoding.{encoding};
ghost use Rattle.bpf_isa.specs.WellFormed.{IsWellFormed, IsOf};

use crate::error::IsaError;
use crate::fault::SlotFault;
use crate::flow::target;
use crate::insn::{Insn, Profile};
use crate::raw::{Raw, SLOT_BYTES, raw_slot};
use crate::table::{LAST_REGISTER, insn_of};
use std::alloc::{AllocError, Global};

/// The opcode of a wide load.
pub const WIDE: u8 = 0x18;

/// How many slots a program has at most.
pub const MAX_SLOTS: usize = 512;

fn next_half(half: bool, op: u8) -> bool
    ensures { result ≡ (not half && (op == 0x18)) }
{
    !half && op == WIDE
}

/// Which slots are second halves.
fn second_halves(alloc: Global, bytes: &[u8], count: usize) -> Result<Vec<bool>, AllocError>
    requires { 8 * count ≤ length bytes.now }
    ensures count { IfOk result (λ v. length v.items ≡ count) }
    ensures each { IfOk result (λ v. MarksHalves v.items bytes.now) }
{
    let mut halves = Vec::with_capacity(alloc, count)?;
    let mut half = false;
    for i in 0..count {
        halves.push(half)?;
        half = next_half(half, bytes[SLOT_BYTES * i]);
    }
    Ok(halves)
}

fn is_half_at(halves: &[bool], place: i64) -> bool
    ensures { (bytes : List ℕ) → MarksHalves halves.now bytes
        → result ≡ half_at bytes (length halves.now) place }
{
    place >= 0 && place < halves.len() as i64 && halves[place as usize]
}

/// Whether the jump of a slot leads into a second half.
fn leads_into_half(halves: &[bool], slot: usize, offset: Option<i32>) -> bool
    requires { slot < 512 }
    ensures { (bytes : List ℕ) → MarksHalves halves.now bytes
        → result ≡ into_half bytes (length halves.now) slot offset }
{
    match offset {
        Some(offset) => is_half_at(halves, target(slot, offset)),
        None => false,
    }
}

/// A second half, which has only an immediate number.
fn half(raw: &Raw) -> Result<Insn, SlotFault>
    ensures { result ≡ half_in raw.now }
{
    if raw.op == 0 && raw.dst == 0 && raw.src == 0 && raw.has_no_offset() {
        Ok(Insn::Half)
    } else {
        Err(SlotFault::Field)
    }
}

/// A wide load, which takes its high half from the slot behind it.
fn wide(bytes: &[u8], count: usize, slot: usize, raw: &Raw) -> Result<Insn, SlotFault>
    requires long { 8 * count ≤ length bytes.now }
    requires within { slot < count }
    ensures { result ≡ wide_in bytes.now count slot raw.now }
{
    if raw.dst > LAST_REGISTER {
        return Err(SlotFault::Register);
    }
    if raw.src != 0 || !raw.has_no_offset() {
        return Err(SlotFault::Field);
    }
    if slot + 1 == count {
        return Err(SlotFault::HalfLoad);
    }
    let high = raw_slot(bytes, slot + 1).imm;
    Ok(Insn::Wide {
        dst: raw.dst,
        low: raw.imm,
        high,
    })
}

/// The instruction of a slot, or its first fault.
#[tactic(auto, unfolding(crate::specs::Decoding::slot_in))]
fn slot_of(profile: Profile, bytes: &[u8], halves: &[bool], slot: usize) -> Result<Insn, SlotFault>
    requires long { 8 * length halves.now ≤ length bytes.now }
    requires within { slot < length halves.now }
    requires few { length halves.now ≤ 512 }
    requires halves { MarksHalves halves.now bytes.now }
    ensures { result ≡ slot_in profile bytes.now (length halves.now) slot }
{
    let raw = raw_slot(bytes, slot);
    if halves[slot] {
        return half(&raw);
    }
    if raw.op == WIDE {
        return wide(bytes, halves.len(), slot, &raw);
    }
    let insn = insn_of(profile, &raw)?;
    if leads_into_half(halves, slot, insn.jump_offset()) {
        return Err(SlotFault::HalfLoad);
    }
    Ok(insn)
}

/// The instructions of all slots, or the fault of the first faulty one.
fn slots_of(
    alloc: Global,
    profile: Profile,
    bytes: &[u8],
    halves: &[bool],
) -> Result<Vec<Insn>, IsaError>
    requires long { 8 * length halves.now ≤ length bytes.now }
    requires few { length halves.now ≤ 512 }
    requires halves { MarksHalves halves.now bytes.now }
    ensures { Gives (λ v. v.items) result
        (slots_from profile bytes.now (length halves.now) 0 (length halves.now)) }
{
    let mut insns = Vec::with_capacity(alloc, halves.len())?;
    for slot in 0..halves.len() {
        match slot_of(profile, bytes, halves, slot) {
            Ok(insn) => insns.push(insn)?,
            Err(fault) => return Err(fault.at(slot as u32)),
        }
    }
    Ok(insns)
}

/// The instructions, without the laws about them.
fn decode_exactly(alloc: Global, profile: Profile, bytes: &[u8]) -> Result<Vec<Insn>, IsaError>
    ensures { Gives (λ v. v.items) result (decoding profile bytes.now) }
{
    if bytes.is_empty() {
        return Err(IsaError::Empty);
    }
    if bytes.len() % SLOT_BYTES != 0 {
        return Err(IsaError::OddLength);
    }
    if bytes.len() > SLOT_BYTES * MAX_SLOTS {
        return Err(IsaError::TooLong);
    }
    let halves = second_halves(alloc, bytes, bytes.len() / SLOT_BYTES)?;
    slots_of(alloc, profile, bytes, &halves)
}

/// The instructions of the bytes, one for each slot, or the first fault: the lengths, then the first faulty slot and its first fault.
pub fn decode(alloc: Global, profile: Profile, bytes: &[u8]) -> Result<Vec<Insn>, IsaError>
    ensures exact { Gives (λ v. v.items) result (decoding profile bytes.now) }
    ensures encodes { IfOk result (λ v. encoding v.items ≡ bytes.now) }
    ensures well_formed { IfOk result (λ v. IsWellFormed v.items) }
    ensures of_profile { IfOk result (λ v. IsOf profile v.items) }
    ensures slots { IfOk result (λ v. HasSlots profile bytes.now v.items) }
{
    decode_exactly(alloc, profile, bytes)
}
