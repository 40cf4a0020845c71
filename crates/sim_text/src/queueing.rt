//! How often the passes of a setup try before they queue, under each of its policies.
ghost use Rattle.std.specs.Prelude.{◌≡◌};
ghost use Rattle.sim_text.specs.Queueing as tries;

use crate::setup::{Queueing, Rule};
use sim_setup::{BuiltIn, Tries};

/// How many attempts a pass makes at most that tries by the policy, where that moves nobody up. One of `shfl_table` makes more, asleep between them.
pub const FEW_ATTEMPTS: u32 = 32;

fn may_move_waiters(rule: &Rule) -> bool
    ensures { result ≡ tries.may_move_waiters rule.now }
{
    match rule {
        Rule::Simple(BuiltIn::Never) => false,
        Rule::Simple(_) => true,
        Rule::Program(policy) => policy.should_program().is_some(),
    }
}

fn few_attempts(moves: bool) -> u32
    ensures { result ≡ tries.few_attempts moves }
{
    if moves { 0 } else { FEW_ATTEMPTS }
}

/// How often a call tries before it queues, under this policy.
pub fn tries_of(queueing: Queueing, rule: &Rule) -> Tries
    ensures { result ≡ tries.tries_of queueing rule.now }
{
    match queueing {
        Queueing::AtOnce => Tries { most: 0, pause: 0 },
        Queueing::After(tries) => tries,
        Queueing::ByPolicy { pause } => Tries {
            most: few_attempts(may_move_waiters(rule)),
            pause,
        },
    }
}
