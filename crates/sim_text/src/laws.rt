//! What holds of every reading of a setup. The function does nothing when it runs: its contract is the law.
ghost use Rattle.std.specs.Prelude.{◌≡◌, ℕ, List, Result};
ghost use Rattle.doc_text.specs.declared.fault.Fault.{Fault};
ghost use Rattle.sim_text.specs.Grammar.{ReadsSetup};
ghost use Rattle.sim_text.specs.Setups.{SetupModel};

/// Bytes have at most one reading: one setup, or one fault. The law is about the definitions alone.
pub fn setups_are_read_once()
    ensures { (bytes : List ℕ) (a b : Result SetupModel Fault) →
        ReadsSetup bytes a → ReadsSetup bytes b → a ≡ b }
{}
