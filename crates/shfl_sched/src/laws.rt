//! What the grammar of schedules and their texts have to do with each other.
ghost use Rattle.std.specs.Prelude.{◌≡◌, ◌↔◌, ℕ, List, Result, Ok};
ghost use Rattle.doc_text.specs.declared.fault.Fault.{Fault};
ghost use Rattle.shfl_sched.specs.Grammar.{ReadsSchedule};
ghost use Rattle.shfl_sched.specs.Schedules.{ScheduleModel, IsWithin};
ghost use Rattle.shfl_sched.specs.Spelling.{IsText};

/// Bytes have at most one reading, and they are read as a schedule exactly where they are a text of it and it is within the
/// limits. The laws are about the definitions alone.
pub fn laws_of_schedules()
    ensures once { (bytes : List ℕ) (a b : Result ScheduleModel Fault) →
        ReadsSchedule bytes a → ReadsSchedule bytes b → a ≡ b }
    ensures text { (bytes : List ℕ) (s : ScheduleModel) →
        ReadsSchedule bytes (Ok s) ↔ (IsText bytes s × IsWithin s) }
{}
