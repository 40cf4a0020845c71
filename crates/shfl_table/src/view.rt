//! What a seat at the table knows, and the rule of the table.
use crate::kept::{Action, Kept};
use atomic_table::{Join, Split, TableRule};
use shfl_core::{Ask, PassState, Rules};
use std::collections::LinkedList;
use std::snapshot::Snapshot;

/// A pass that was given back: its number, and what it saw of the history. No value of it is made.
pub struct Given {
    pub number: u64,
    pub history: LinkedList<Action>,
}

/// What a pass did: its operations on the words and what they found, its attempts, and what it asked the policy. No value of it is made.
pub struct Part {
    pub number: u64,
    pub steps_taken: u64,
    pub found: LinkedList<u64>,
    pub attempts: u64,
    pub decisions: LinkedList<Decision>,
}

/// A question that a step put to the policy, with the choice that it was given. No value of it is made.
pub struct Decision {
    pub ask: Ask,
    pub choice: bool,
}

/// What a seat knows. No value of it is made.
pub struct View {
    /// Where its pass stands, as others see it.
    pub pass: PassState,
    pub steps_taken: u64,
    /// The words that its operations found, in their order.
    pub found: LinkedList<u64>,
    pub decisions: LinkedList<Decision>,
    /// How often it tried to take the lock without queueing.
    pub attempts: u64,
    /// The attribute word of each pass of its board.
    pub attrs: LinkedList<u64>,
    pub initial_state: LinkedList<u64>,
    /// The history of the values, as far as the pass saw it.
    pub history: LinkedList<Action>,
    /// It wasn't given back.
    pub live: bool,
    /// It is the last one, who may split off the next.
    pub last: bool,
    /// The passes that it took back.
    pub back: LinkedList<Given>,
    /// What these did.
    pub parts: LinkedList<Part>,
}

/// What the opening fixes.
#[derive(Drop)]
pub struct Opening<V> {
    pub rules: Rules,
    pub count: u32,
    pub words: Snapshot<Vec<u64>>,
    pub values: Snapshot<Vec<V>>,
}

/// The words and the passes are a lawful world, which a list of changes makes of the opening; each seat knows what its pass did in that
/// list; the holds in it have made the history of the values; and every value is at home or out with a holder.
pub struct LawfulBoard;

impl<V: Kept> TableRule<Option<V>, View, Opening<V>> for LawfulBoard {
    ghost use Rattle.shfl_table.specs.BoardRule.{BoardRule};
    ghost use Rattle.shfl_table.specs.Histories.{initial_state_of};
    ghost use Rattle.shfl_table.specs.Views.{first_view};
    ghost use Rattle.shfl_laws.specs.Moves.{told_terms};

    ghost holds = { λ k. BoardRule V.initial_state V.history
        (told_terms k.rules k.count k.words.value.items)
        (initial_state_of V.initial_state k.values.value.items) };

    ghost first = { λ k. first_view (told_terms k.rules k.count k.words.value.items).attrs
        (initial_state_of V.initial_state k.values.value.items) };
}

/// The last pass splits off the next one.
pub struct NextPass;

impl Split<View> for NextPass {
    ghost use Rattle.shfl_table.specs.Views.{not_last, next_view};

    ghost left = { not_last };

    ghost right = { next_view };
}

/// A pass is given back.
pub struct ReturnPass;

impl Join<View> for ReturnPass {
    ghost use Rattle.shfl_table.specs.Views.{with_given, spent_view};

    ghost both = { with_given };

    ghost spent = { spent_view };
}
