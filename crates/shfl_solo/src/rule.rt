//! What the one seat knows, the rule of the table, and what a step tells.
use atomic_table::{Play, TableRule};
use shfl_core::{PassState, Rules};
use std::collections::LinkedList;
use std::marker::{Brand, PhantomData};
use std::snapshot::Snapshot;

/// What an opening fixes: the rules, the words and the passes.
#[derive(Drop)]
pub struct Opening {
    pub rules: Rules,
    pub words: Snapshot<Vec<u64>>,
    pub passes: Snapshot<Vec<PassState>>,
}

/// All words, and where all passes stood after their last steps. No value of it is made.
pub struct Whole {
    pub words: LinkedList<u64>,
    pub passes: LinkedList<PassState>,
}

/// The words and the passes are a lawful lock of that opening.
pub struct StaysLawful;

impl TableRule<(), Whole, Opening> for StaysLawful {
    ghost use Rattle.shfl_solo.specs.Rule.{IsWholeLock, first_view};

    ghost holds = { IsWholeLock };

    ghost first = { first_view };
}

/// Whose step it is, by which rules, where that pass stands, and the choice. Each call picks them.
pub trait Stepping {
    ghost use Rattle.std.specs.Prelude.{ℕ, Bool};
    ghost use Rattle.shfl_core.specs.declared.phase.Rules.{Rules as GivenRules};
    ghost use Rattle.shfl_core.specs.declared.phase.PassState.{PassState as Standing};

    /// The rules of the lock.
    ghost rules: { GivenRules };

    /// The number of the pass.
    ghost pass: { ℕ };

    /// Where the pass stands.
    ghost own: { Standing };

    /// What the policy answers.
    ghost choice: { Bool };
}

impl Stepping for Brand {
    ghost use Rattle.std.specs.Prelude.{false};
    ghost use Rattle.shfl_line.specs.declared.events.Form.TheVariants.{Spin};
    ghost use Rattle.shfl_core.specs.Waiting.{idle};

    ghost rules = { record { limit = 1; form = Spin } };

    ghost pass = { 0 };

    ghost own = { idle 0 };

    ghost choice = { false };
}

/// The step of a pass: the lock goes on by it.
pub struct Row<M> {
    of: PhantomData<M>,
}

impl<M: Stepping> Play<(), Whole> for Row<M> {
    ghost use Rattle.shfl_solo.specs.Rule.{row_of};

    ghost then = { row_of M.rules M.pass M.own M.choice };
}

/// A word is read, and the lock stays as it is.
pub struct Reading;

impl Play<(), Whole> for Reading {
    ghost use Rattle.shfl_solo.specs.Rule.{reads};

    ghost then = { reads };
}
