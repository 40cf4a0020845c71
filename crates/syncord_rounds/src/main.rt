//! The program behind `bin/syncord-rounds`: a trace on standard input, on standard output its report and what its policies were told.
#![tactic(auto)]

mod commands;
mod lingering;
mod lock;
mod queue;
mod rounds;
mod run;
mod top;

use crate::lingering::Lingering;
use crate::top::tell_rounds;
use std::process::ExitCode;
use syn_outer::{StdSink, StdSource, words_of};

fn main(rt: HostRuntime) -> ExitCode {
    let Ok(words) = words_of(rt.alloc(), &rt) else {
        return ExitCode::from(5);
    };
    let mut src = StdSource::new(rt.stdin());
    let mut out = StdSink::new(rt.stdout());
    let mut err = StdSink::new(rt.stderr());
    let gate = Lingering::new();
    let status = tell_rounds(&rt, rt.alloc(), &words, &mut src, &mut out, &mut err, &gate);
    ExitCode::from(status)
}
