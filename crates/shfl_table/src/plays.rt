//! What a step and an attempt do with their seat. The terms that they are made for serve the proofs alone: each call picks them.
use crate::kept::Kept;
use crate::view::View;
use atomic_table::Play;
use std::marker::{Brand, PhantomData};

/// What a step is made for: the rules and attributes, where the pass stands, and the choice.
pub trait StepTerms {
    ghost use Rattle.std.specs.Prelude.{Bool};
    ghost use Rattle.shfl_core.specs.Lawful.{Terms};
    ghost use Rattle.shfl_core.specs.declared.phase.PassState.{PassState as Standing};

    ghost terms: { Terms };

    ghost own: { Standing };

    ghost choice: { Bool };
}

impl StepTerms for Brand {
    ghost use Rattle.std.specs.Prelude.{false, []};
    ghost use Rattle.shfl_line.specs.declared.events.Form.TheVariants.{Spin};
    ghost use Rattle.shfl_core.specs.Waiting.{idle};

    ghost terms = { record { rules = record { limit = 1; form = Spin }; attrs = [] } };

    ghost own = { idle 0 };

    ghost choice = { false };
}

/// The step of a pass.
pub struct StepPlay<M> {
    of: PhantomData<M>,
}

impl<M: StepTerms, V: Kept> Play<Option<V>, View> for StepPlay<M> {
    ghost use Rattle.shfl_table.specs.ValueMoves.{step_play};

    ghost then = { step_play V.initial_state V.history M.terms M.own M.choice };
}

/// What an attempt is made for: the rules and attributes, and the mode.
pub trait AttemptTerms {
    ghost use Rattle.shfl_core.specs.Lawful.{Terms};
    ghost use Rattle.shfl_line.specs.declared.events.Mode.{Mode as HoldMode};

    ghost goal: { Terms };

    ghost wants: { HoldMode };
}

impl AttemptTerms for Brand {
    ghost use Rattle.std.specs.Prelude.{[]};
    ghost use Rattle.shfl_line.specs.declared.events.Form.TheVariants.{Spin};
    ghost use Rattle.shfl_line.specs.declared.events.Mode.TheVariants.{Write};

    ghost goal = { record { rules = record { limit = 1; form = Spin }; attrs = [] } };

    ghost wants = { Write };
}

/// The first operation of an attempt.
pub struct AttemptPlay<M> {
    of: PhantomData<M>,
}

impl<M: AttemptTerms, V: Kept> Play<Option<V>, View> for AttemptPlay<M> {
    ghost use Rattle.shfl_table.specs.ValueMoves.{attempt_play};

    ghost then = { attempt_play V.initial_state V.history M.goal M.wants };
}

/// What disabling stealing is made for: the rules and attributes.
pub trait DisablingTerms {
    ghost use Rattle.shfl_core.specs.Lawful.{Terms};

    ghost lock: { Terms };
}

impl DisablingTerms for Brand {
    ghost use Rattle.std.specs.Prelude.{[]};
    ghost use Rattle.shfl_line.specs.declared.events.Form.TheVariants.{Spin};

    ghost lock = { record { rules = record { limit = 1; form = Spin }; attrs = [] } };
}

/// The queue's head disables stealing again.
pub struct DisablingPlay<M> {
    of: PhantomData<M>,
}

impl<M: DisablingTerms, V: Kept> Play<Option<V>, View> for DisablingPlay<M> {
    ghost use Rattle.shfl_table.specs.Disabling.{disabling_play};

    ghost then = { disabling_play V.initial_state V.history M.lock };
}
