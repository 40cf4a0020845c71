//! The program behind those commands of `bin/syncord` that start no thread: its words and standard input to standard output and standard error.
#![tactic(auto)]

ghost use Rattle.std.specs.Prelude.{◌≡◌};
ghost use Rattle.std.specs.Process.{exit_status};

mod top;

use crate::top::syncord_single;
use std::process::ExitCode;
use syn_outer::{StdSink, StdSource, words_of};

// The process ends with the status.
fn ending_with(status: u8) -> ExitCode
    ensures { exit_status result ≡ status }
{
    ExitCode::from(status)
}

fn main(rt: HostRuntime) -> ExitCode {
    let Ok(words) = words_of(rt.alloc(), &rt) else {
        return ending_with(5);
    };
    let mut src = StdSource::new(rt.stdin());
    let mut out = StdSink::new(rt.stdout());
    let mut err = StdSink::new(rt.stderr());
    let status = syncord_single(rt.alloc(), &words, &mut src, &mut out, &mut err);
    ending_with(status)
}
