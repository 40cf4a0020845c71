//! The current word, and what each seat of its table knows. The word's low half is the current version, its high half the place
//! of that version's policy among the declared ones.
use atomic_table::{Join, Play, Shared, Split, TableRule};
use shfl_policy::Policy;
use std::collections::LinkedList;
use std::snapshot::Snapshot;

/// What a seat knows. No value of it is made.
pub struct View {
    pub publisher: bool,
    pub declared: LinkedList<Policy>,
    /// The publisher's: the words that were current, in order.
    pub words: LinkedList<u64>,
    /// The words that this seat has loaded, the last one first.
    pub seen: LinkedList<u64>,
    /// It was given back.
    pub spent: bool,
}

/// What is fixed at opening.
#[derive(Drop)]
pub struct Declared {
    pub policies: Snapshot<Vec<Policy>>,
}

/// The rule that the current word and all seats keep.
pub struct CurrentWord;

impl TableRule<(), View, Declared> for CurrentWord {
    ghost use Rattle.policy_versions.specs.Rule.{IsConsistent, first_view};

    ghost holds = { λ k. IsConsistent k.policies.value.items };

    ghost first = { λ k. first_view k.policies.value.items };
}

/// Which registry it is.
pub type Origin = Snapshot<Shared<(), View, Declared, CurrentWord>>;

/// The load of the current word.
pub struct Load;

impl Play<(), View> for Load {
    ghost use Rattle.policy_versions.specs.Rule.{loaded};

    ghost then = { λ _ m n m'. loaded m n m' };
}

/// The raise of the current word.
pub struct Raise;

impl Play<(), View> for Raise {
    ghost use Rattle.policy_versions.specs.Rule.{raised};

    ghost then = { λ _ m n m'. raised m n m' };
}

/// The publisher splits off a user.
pub struct NextUser;

impl Split<View> for NextUser {
    ghost use Rattle.policy_versions.specs.Rule.{user_view};

    ghost left = { λ v. v };

    ghost right = { λ v. user_view v.declared };
}

/// A user is given back to the publisher.
pub struct ReturnUser;

impl Join<View> for ReturnUser {
    ghost use Rattle.std.specs.Prelude.{◌++◌, []};
    ghost use Rattle.policy_versions.specs.Rule.{given_back, spent};

    ghost both = { given_back };

    ghost spent = { spent };
}
