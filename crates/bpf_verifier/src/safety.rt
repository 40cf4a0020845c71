//! What acceptance is for.

ghost use Rattle.std.specs.Prelude.{List};
ghost use Rattle.bpf_isa.specs.declared.insn.Insn.{Insn};
ghost use Rattle.bpf_isa.specs.WellFormed.{IsWellFormed};
ghost use Rattle.bpf_verifier.specs.Acceptance.{IsAccepted};
ghost use Rattle.bpf_verifier.specs.Safety.{RunsSafely};

/// The law of accepted programs, which has no code: whatever way a run of one takes from slot 0, it never reads a register without
/// a value, never leaves the program and never reads outside the context.
pub fn accepted_runs_safely()
    ensures { (insns : List Insn) → IsWellFormed insns → IsAccepted insns → RunsSafely insns }
{}
