//! Values that tell their history.
use std::collections::LinkedList;

/// What a pass did to a value: its number, the call and the reply. No value of it is made: it stands in meanings alone.
pub struct Action {
    pub worker: u64,
    pub call: LinkedList<u64>,
    pub reply: LinkedList<u64>,
}

/// A value that tells what was done to it.
pub trait Kept {
    ghost use Rattle.std.specs.Prelude.{ℕ, List};
    ghost use Rattle.shfl_table.specs.declared.kept.Action.{Action};

    /// What it was at first, and whatever else never changes.
    ghost initial_state: { Self → List ℕ };

    /// What was done to it so far.
    ghost history: { Self → List Action };
}

impl Kept for () {
    ghost use Rattle.std.specs.Prelude.{[]};

    ghost initial_state = { λ _. [] };

    ghost history = { λ _. [] };
}
