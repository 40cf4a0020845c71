//! The program behind `bin/draw`: a report of `line` on standard input, a picture of it on standard output.
#![tactic(auto)]

mod commands;
mod draw;
mod drawing;

use crate::draw::draw;
use std::process::ExitCode;
use syn_outer::{StdSink, StdSource, words_of};

fn main(rt: HostRuntime) -> ExitCode {
    let Ok(words) = words_of(rt.alloc(), &rt) else {
        return ExitCode::from(5);
    };
    let mut src = StdSource::new(rt.stdin());
    let mut out = StdSink::new(rt.stdout());
    let mut err = StdSink::new(rt.stderr());
    let status = draw(rt.alloc(), &words, &mut src, &mut out, &mut err);
    ExitCode::from(status)
}
