//! The program behind `bin/syncord-sim`: a setup on standard input, a report of it on standard output.
#![tactic(auto)]

mod commands;
mod simulate;
mod simulation;

use crate::simulate::simulate;
use std::process::ExitCode;
use syn_outer::{StdSink, StdSource, words_of};

fn main(rt: HostRuntime) -> ExitCode {
    let Ok(words) = words_of(rt.alloc(), &rt) else {
        return ExitCode::from(5);
    };
    let mut src = StdSource::new(rt.stdin());
    let mut out = StdSink::new(rt.stdout());
    let mut err = StdSink::new(rt.stderr());
    let status = simulate(rt.alloc(), &words, &mut src, &mut out, &mut err);
    ExitCode::from(status)
}
