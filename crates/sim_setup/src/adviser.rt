//! Who answers the questions of a round, and how many instructions that takes.
ghost use Rattle.std.specs.Prelude.{◌≡◌};
ghost use Rattle.shfl_line.specs.declared.words.Attr.{Attr as Attributes};
ghost use Rattle.shfl_core.specs.declared.phase.Ask.{Ask as Question};
ghost use Rattle.sim_setup.specs.Advices as advices;
ghost use Rattle.sim_setup.specs.declared.adviser.Advice.{Advice as Given};

use shfl_core::Ask;
use shfl_line::Attr;

/// An answer.
#[derive(Clone, Copy, Drop)]
pub struct Advice {
    pub yes: bool,
    /// How many instructions were run.
    pub insns: u64,
}

/// A policy.
pub trait Adviser {
    /// What it answers to a pass with these attributes.
    ghost answers: { Self → Attributes → Question → Given };

    /// The answer to a question of a pass with these attributes.
    fn answer(&self, own: &Attr, ask: Ask) -> Advice
        ensures { result ≡ answers self.now own.now ask };
}

/// What a step is answered; one that asks nothing gets no.
#[inline(always)]
pub fn advised<A: Adviser>(adviser: &A, own: &Attr, ask: Ask) -> Advice
    ensures { result ≡ advices.advised (A.answers adviser.now own.now) ask }
{
    match ask {
        Ask::Nothing => Advice {
            yes: false,
            insns: 0,
        },
        _ => adviser.answer(own, ask),
    }
}
