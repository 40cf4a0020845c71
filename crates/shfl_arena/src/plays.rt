//! What an operation does with its seat. The terms that it is made for serve the proofs alone: each call picks them.
use crate::view::SeatView;
use atomic_table::Play;
use std::marker::{Brand, PhantomData};

/// What a step is made for: the table and the lock, where the pass stands, and the choice.
pub trait StepTerms {
    ghost use Rattle.std.specs.Prelude.{Bool};
    ghost use Rattle.shfl_arena.specs.Operations.{LockTerms};
    ghost use Rattle.shfl_core.specs.declared.phase.PassState.{PassState as Standing};

    ghost terms: { LockTerms };

    ghost own: { Standing };

    ghost choice: { Bool };
}

impl StepTerms for Brand {
    ghost use Rattle.std.specs.Prelude.{false};
    ghost use Rattle.shfl_line.specs.declared.events.Form.TheVariants.{Spin};
    ghost use Rattle.shfl_core.specs.Waiting.{idle};

    ghost terms = { record {
      shape = record { locks = 1; spread = false };
      rules = record { limit = 1; form = Spin };
      threads = 1;
      lock = 0;
    } };

    ghost own = { idle 0 };

    ghost choice = { false };
}

/// The step of a seat.
pub struct StepPlay<M> {
    of: PhantomData<M>,
}

impl<M: StepTerms, V> Play<Option<V>, SeatView> for StepPlay<M> {
    ghost use Rattle.shfl_arena.specs.Operations.{step_play};

    ghost then = { step_play M.terms M.own M.choice };
}

/// What an attempt is made for: the table and the lock, the seat's number, and the mode.
pub trait AttemptTerms {
    ghost use Rattle.std.specs.Prelude.{ℕ};
    ghost use Rattle.shfl_arena.specs.Operations.{LockTerms};
    ghost use Rattle.shfl_line.specs.declared.events.Mode.{Mode as HoldMode};

    ghost goal: { LockTerms };

    ghost number: { ℕ };

    ghost wants: { HoldMode };
}

impl AttemptTerms for Brand {
    ghost use Rattle.std.specs.Prelude.{false};
    ghost use Rattle.shfl_line.specs.declared.events.Form.TheVariants.{Spin};
    ghost use Rattle.shfl_line.specs.declared.events.Mode.TheVariants.{Write};

    ghost goal = { record {
      shape = record { locks = 1; spread = false };
      rules = record { limit = 1; form = Spin };
      threads = 1;
      lock = 0;
    } };

    ghost number = { 0 };

    ghost wants = { Write };
}

/// The one operation of an attempt.
pub struct AttemptPlay<M> {
    of: PhantomData<M>,
}

impl<M: AttemptTerms, V> Play<Option<V>, SeatView> for AttemptPlay<M> {
    ghost use Rattle.shfl_arena.specs.Operations.{attempt_play};

    ghost then = { attempt_play M.goal M.number M.wants };
}

/// The look before that operation, of a writer.
pub struct LookPlay<M> {
    of: PhantomData<M>,
}

impl<M: AttemptTerms, V> Play<Option<V>, SeatView> for LookPlay<M> {
    ghost use Rattle.shfl_arena.specs.Operations.{look_play};

    ghost then = { look_play M.goal M.number };
}

/// An operation by which no pass goes on.
pub struct StillPlay;

impl<V> Play<Option<V>, SeatView> for StillPlay {
    ghost use Rattle.shfl_arena.specs.Operations.{still_play};

    ghost then = { still_play };
}
