//! The policies that need no program.
use crate::adviser::{Advice, Adviser};
use shfl_core::Ask;
use shfl_line::Attr;

/// Who is let into a group: nobody, everybody, or the waiters of the asking pass's socket. No round is skipped.
#[derive(Clone, Copy, Drop)]
pub enum BuiltIn {
    Never,
    Always,
    Socket,
}

impl Adviser for BuiltIn {
    ghost use Rattle.sim_setup.specs.Advices.{built_in};

    ghost answers = { built_in };

    fn answer(&self, own: &Attr, ask: Ask) -> Advice {
        let yes = match ask {
            Ask::Should { waiter, batch: _ } => match self {
                BuiltIn::Never => false,
                BuiltIn::Always => true,
                BuiltIn::Socket => own.socket == waiter.socket,
            },
            _ => false,
        };
        Advice { yes, insns: 0 }
    }
}
