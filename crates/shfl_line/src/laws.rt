//! Laws of the definitions, for every state and event and not for those of a run alone.
ghost use Rattle.std.specs.Prelude.{◌≡◌, ℕ};
ghost use Rattle.shfl_line.specs.Line.{IsOfPasses, IsWellFormed};
ghost use Rattle.shfl_line.specs.Steps.{EachStepKeeps};
ghost use Rattle.shfl_line.specs.Tests.{TestsAgree};

/// The laws of a line step, as facts on the definitions. It does nothing when it runs.
pub fn laws_of_line_steps()
    ensures passes { EachStepKeeps (λ _ passes s. IsOfPasses passes s) }
    ensures well_formed { EachStepKeeps (λ limit _ s. IsWellFormed limit s) }
    ensures decided { TestsAgree }
{}
