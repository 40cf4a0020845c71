//! What the grammar of traces and their texts have to do with each other.
ghost use Rattle.std.specs.Prelude.{◌≡◌, ◌↔◌, ℕ, List, Result, Ok};
ghost use Rattle.doc_text.specs.declared.fault.Fault.{Fault};
ghost use Rattle.trace_text.specs.Document.{Document};
ghost use Rattle.trace_text.specs.Grammar.{ReadsTrace};
ghost use Rattle.trace_text.specs.Limits.{Fits};
ghost use Rattle.trace_text.specs.Texts.{IsText};

/// Bytes have at most one reading, and they are read as a trace exactly where they are a text of it and it is within the limits.
/// The laws are about the definitions alone.
pub fn laws_of_traces()
    ensures once { (bytes : List ℕ) (a b : Result Document Fault) →
        ReadsTrace bytes a → ReadsTrace bytes b → a ≡ b }
    ensures text { (bytes : List ℕ) (d : Document) →
        ReadsTrace bytes (Ok d) ↔ (IsText bytes d × Fits d) }
{}
