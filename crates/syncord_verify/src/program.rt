//! From digits to the program that they write, or to the first fault of reading or decoding them.
ghost use Rattle.std.specs.Prelude.{◌≡◌, ◌≤◌, length, IfOk, IfErr};
ghost use Rattle.bpf_isa.specs.WellFormed.{IsWellFormed};
ghost use Rattle.syncord_endings.specs.Endings.{Due, most_bytes};
ghost use Rattle.syncord_verify.specs.Refusals.{of_decoder};
ghost use Rattle.syncord_verify.specs.Verdicts.{Writes, IsNoProgram};

use bpf_isa::{Insn, IsaError, Profile, decode};
use doc_text::{DigitsError, spread_bytes};
use std::alloc::Global;
use syncord_endings::Refusal;

fn of_decoder(fault: IsaError) -> Refusal
    ensures { result ≡ of_decoder fault }
{
    match fault {
        IsaError::Empty => Refusal::Program { number: 1 },
        IsaError::OddLength => Refusal::Program { number: 2 },
        IsaError::TooLong => Refusal::Program { number: 3 },
        IsaError::BadOpcode { slot } => Refusal::Slot { number: 4, slot },
        IsaError::BadRegister { slot } => Refusal::Slot { number: 5, slot },
        IsaError::Reserved { slot } => Refusal::Slot { number: 6, slot },
        IsaError::HalfWide { slot } => Refusal::Slot { number: 7, slot },
        IsaError::NoMemory => Refusal::NoMemory,
    }
}

/// The instructions of the profile that the digits write, one for each slot, or the first fault.
pub fn program_in(alloc: Global, profile: Profile, digits: &[u8]) -> Result<Vec<Insn>, Refusal>
    requires { length digits.now ≤ most_bytes }
    ensures written { IfOk result (λ insns. Writes profile digits.now insns.items) }
    ensures well_formed { IfOk result (λ insns. IsWellFormed insns.items) }
    ensures refusal { IfErr result (Due (IsNoProgram profile digits.now)) }
{
    let bytes = match spread_bytes(alloc, digits) {
        Ok(bytes) => bytes,
        Err(DigitsError::Format { line, what }) => return Err(Refusal::Line { line, what }),
        Err(DigitsError::NoMemory) => return Err(Refusal::NoMemory),
    };
    match decode(alloc, profile, bytes.as_slice()) {
        Ok(insns) => Ok(insns),
        Err(fault) => Err(of_decoder(fault)),
    }
}
