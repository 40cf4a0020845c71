//! What loading means for the bytes of a document. The function does nothing: its contract is the law.
ghost use Rattle.std.specs.Prelude.{◌≡◌, ◌<◌, ℕ, List, Some, slice_index};
ghost use Rattle.bpf_isa.specs.declared.insn.Insn.{Insn};
ghost use Rattle.bpf_isa.specs.declared.insn.Profile.{Profile};
ghost use Rattle.bpf_isa.specs.Encoding.{encoding};
ghost use Rattle.shfl_policy.specs.Loading.{Loads};

/// A program that was loaded is its bytes and no others: they are what it is encoded as.
pub fn a_loaded_program_is_its_bytes()
    ensures law { (profile : Profile) (bytes : List ℕ) (insns : List Insn)
        → ((i : ℕ) → slice_index bytes i < 256) → Loads profile (Some bytes) (Some insns)
        → encoding insns ≡ bytes }
{}
