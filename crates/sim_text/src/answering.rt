//! The rule of a setup as one that answers the questions of a round.
ghost use Rattle.std.specs.Prelude.{◌≡◌};
ghost use Rattle.sim_text.specs.Answering.{said_by, policy_advice};

use crate::setup::Rule;
use bpf_run::counted;
use bpf_verifier::Program;
use shfl_core::Ask;
use shfl_line::Attr;
use shfl_policy::{Policy, context};
use sim_setup::{Advice, Adviser};

/// The attributes of no waiter.
const NOBODY: Attr = Attr {
    socket: 0,
    prio: 0,
    class: 0,
    kind: 0,
};

const NO: Advice = Advice {
    yes: false,
    insns: 0,
};

fn said_by(program: &Option<Program>, context: &[u8; 40]) -> Advice
    ensures { result ≡ said_by program.now context.now }
{
    match program {
        None => NO,
        Some(program) => {
            let ran = counted(program, context);
            Advice {
                yes: ran.value != 0,
                insns: ran.count,
            }
        }
    }
}

fn policy_advice(policy: &Policy, own: &Attr, ask: Ask) -> Advice
    ensures { result ≡ policy_advice policy.now own.now ask }
{
    match ask {
        Ask::Nothing => NO,
        Ask::Skip { batch } => said_by(policy.skip_program(), &context(own, &NOBODY, batch)),
        Ask::Should { waiter, batch } => {
            said_by(policy.should_program(), &context(own, &waiter, batch))
        }
    }
}

impl Adviser for Rule {
    ghost use Rattle.sim_text.specs.Answering.{rule_advice};

    ghost answers = { rule_advice };

    fn answer(&self, own: &Attr, ask: Ask) -> Advice {
        match self {
            Rule::Simple(rule) => rule.answer(own, ask),
            Rule::Program(policy) => policy_advice(policy, own, ask),
        }
    }
}
