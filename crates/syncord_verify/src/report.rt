//! From digits to the report of an accepted program, or to the first fault.
ghost use Rattle.std.specs.Prelude.{◌≡◌, ◌≤◌, length, IfOk, IfErr, OnOk};
ghost use Rattle.syncord_endings.specs.declared.ending.Refusal.TheVariants.{Register};
ghost use Rattle.syncord_endings.specs.Endings.{Due, most_bytes};
ghost use Rattle.syncord_verify.specs.Refusals.{of_verifier};
ghost use Rattle.syncord_verify.specs.Verdicts.{Reports, Refuses, accepted_text};

use crate::program::program_in;
use bpf_isa::Profile;
use bpf_verifier::verify;
use doc_text::push_decimal;
use std::alloc::{AllocError, Global};
use syncord_endings::Refusal;

fn of_register(number: u8, slot: u32, register: u8) -> Refusal
    ensures { result ≡ Register number slot register }
{
    Refusal::Register {
        number,
        slot,
        register,
    }
}

fn of_verifier(fault: bpf_verifier::Refusal) -> Refusal
    ensures { result ≡ of_verifier fault }
{
    match fault {
        bpf_verifier::Refusal::Back { slot } => Refusal::Slot { number: 8, slot },
        bpf_verifier::Refusal::OutOfProgram { slot } => Refusal::Slot { number: 9, slot },
        bpf_verifier::Refusal::NoValue { slot, reg } => of_register(10, slot, reg),
        bpf_verifier::Refusal::PointerUse { slot, reg } => of_register(11, slot, reg),
        bpf_verifier::Refusal::BadLoad { slot } => Refusal::Slot { number: 12, slot },
        bpf_verifier::Refusal::NoMemory => Refusal::NoMemory,
    }
}

/// The report of a program of so many slots.
fn accepted_text(alloc: Global, slots: u32) -> Result<Vec<u8>, AllocError>
    ensures { IfOk result (λ text. text.items ≡ accepted_text slots) }
{
    let mut text = Vec::new(alloc);
    text.extend_from_slice(b"accepted slots ")?;
    push_decimal(&mut text, u64::from(slots))?;
    text.extend_from_slice(b"\n")?;
    Ok(text)
}

/// The report of the program that the digits write, or the first fault.
pub fn verdict(alloc: Global, profile: Profile, digits: &[u8]) -> Result<Vec<u8>, Refusal>
    requires { length digits.now ≤ most_bytes }
    ensures report { IfOk result (λ text. Reports profile digits.now text.items) }
    ensures refusal { IfErr result (Due (Refuses profile digits.now)) }
{
    let insns = program_in(alloc, profile, digits)?;
    let program = match verify(alloc, insns) {
        Ok(program) => program,
        Err(fault) => return Err(of_verifier(fault)),
    };
    match accepted_text(alloc, program.slots()) {
        Ok(text) => Ok(text),
        Err(AllocError) => Err(Refusal::NoMemory),
    }
}
