//! From the digits of a program to its text, or to the first fault of decoding.
ghost use Rattle.std.specs.Prelude.{◌≡◌, ◌≤◌, length, IfOk, IfErr};
ghost use Rattle.syncord_endings.specs.Endings.{Due, most_bytes};
ghost use Rattle.syncord_verify.specs.Verdicts.{IsNoProgram};
ghost use Rattle.syncord_asm.specs.Listings.{Reports};

use bpf_asm::disassemble;
use bpf_isa::{NoMemory, Profile};
use std::alloc::Global;
use syncord_endings::Refusal;
use syncord_verify::program_in;

/// The text of the program that the digits write, a line an instruction, or the first fault.
pub fn listed(alloc: Global, profile: Profile, digits: &[u8]) -> Result<Vec<u8>, Refusal>
    requires { length digits.now ≤ most_bytes }
    ensures report { IfOk result (λ text. Reports profile digits.now text.items) }
    ensures refusal { IfErr result (Due (IsNoProgram profile digits.now)) }
{
    let insns = program_in(alloc, profile, digits)?;
    match disassemble(alloc, &insns) {
        Ok(text) => Ok(text),
        Err(NoMemory) => Err(Refusal::NoMemory),
    }
}
