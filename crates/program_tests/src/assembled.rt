//! Programs in assembly, and their instructions.
ghost use Rattle.std.specs.Prelude.{IfOk};
ghost use Rattle.bpf_isa.specs.WellFormed.{IsWellFormed};

use bpf_asm::{AsmError, assemble};
use bpf_isa::{Insn, Profile};
use std::alloc::Global;
use std::process::Abort;

/// What a text that is short enough assembles to.
pub(crate) fn read(alloc: Global, profile: Profile, text: &[u8]) -> Result<Vec<Insn>, AsmError>
    ensures { IfOk result (λ v. IsWellFormed v.items) }
{
    if text.len() >= 0x8000_0000 {
        return Err(AsmError::NoMemory);
    }
    assemble(alloc, profile, text)
}

/// The instructions of the text.
pub(crate) fn insns_of(rt: &impl Abort, alloc: Global, profile: Profile, text: &[u8]) -> Vec<Insn>
    ensures { IsWellFormed result.items }
{
    read(alloc, profile, text).expect(rt, "instructions")
}

/// The instructions of the text, of profile 2.
pub(crate) fn instructions(rt: &impl Abort, alloc: Global, text: &[u8]) -> Vec<Insn>
    ensures { IsWellFormed result.items }
{
    insns_of(rt, alloc, Profile::Two, text)
}

/// The front, and then the line so many times.
pub(crate) fn repeated(
    rt: &impl Abort,
    alloc: Global,
    front: &[u8],
    line: &[u8],
    times: u32,
) -> Vec<u8> {
    let mut text = Vec::from_slice(alloc, front).expect(rt, "memory");
    for _ in 0..times {
        text.extend_from_slice(line).expect(rt, "memory");
    }
    text
}
