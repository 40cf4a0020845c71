//! From a program's text to its slots, or to the first bad line.
ghost use Rattle.std.specs.Prelude.{◌≡◌, ◌≤◌, length, IfOk, IfErr};
ghost use Rattle.syncord_endings.specs.Endings.{Due, most_bytes};
ghost use Rattle.syncord_asm.specs.Assemblies.{Reports, Refuses};

use crate::slots::slot_lines;
use bpf_asm::{AsmError, assemble};
use bpf_isa::{NoMemory, Profile, encode};
use std::alloc::{AllocError, Global};
use syncord_endings::Refusal;

/// The slots of the program that the text says, a line each, or the first bad line and its lowest fault.
pub fn assembled(alloc: Global, profile: Profile, text: &[u8]) -> Result<Vec<u8>, Refusal>
    requires { length text.now ≤ most_bytes }
    ensures report { IfOk result (λ slots. Reports profile text.now slots.items) }
    ensures refusal { IfErr result (Due (Refuses profile text.now)) }
{
    let insns = match assemble(alloc, profile, text) {
        Ok(insns) => insns,
        Err(AsmError::Format { line, what }) => return Err(Refusal::Line { line, what }),
        Err(AsmError::NoMemory) => return Err(Refusal::NoMemory),
    };
    let bytes = match encode(alloc, &insns) {
        Ok(bytes) => bytes,
        Err(NoMemory) => return Err(Refusal::NoMemory),
    };
    match slot_lines(alloc, &bytes) {
        Ok(slots) => Ok(slots),
        Err(AllocError) => Err(Refusal::NoMemory),
    }
}
