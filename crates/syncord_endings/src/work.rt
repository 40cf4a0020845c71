//! A command that reads its input whole, makes a report of it, and writes that whole.
ghost use Rattle.std.specs.Prelude.{◌≤◌, ◌+◌, List, ℕ, length, IfOk, IfErr};
ghost use Rattle.syncord_endings.specs.declared.ending.Refusal.{Refusal};
ghost use Rattle.syn_outer.specs.Causes.{CallsAtMost};
ghost use Rattle.syncord_endings.specs.Traffic.{through};
ghost use Rattle.syncord_endings.specs.Endings.{Due, Ends, Answers, AnswersAs, Decides, most_bytes};

use crate::ending::{Ending, Refusal};
use crate::streams::{deliver, read_input};
use crate::telling::tell_ending_as;
use std::alloc::Global;
use syn_outer::{Sink, Source};

/// What a command does between reading and writing.
pub trait Work {
    /// The bytes may have this report.
    ghost reports: { Self → List ℕ → List ℕ → Type 0 };

    /// The bytes are refused so.
    ghost refuses: { Self → List ℕ → Refusal → Type 0 };

    /// What it rests on, as what a closure promises that it calls. Most rest on nothing.
    ghost ready: { Self → Type 0 } = { λ _. Unit {0} };

    /// Makes the report of the bytes, whose memory it may give back before, or says why there is none.
    fn report(&self, alloc: Global, bytes: Vec<u8>) -> Result<Vec<u8>, Refusal>
        requires few { length bytes.items ≤ most_bytes }
        requires ready { ready self.now }
        ensures report { IfOk result (λ text. reports self.now bytes.items text.items) }
        ensures refusal { IfErr result (Due (refuses self.now bytes.items)) };
}

/// Reads, makes the report, and writes it.
fn ending<K: Work, R: Source, W: Sink>(work: &K, alloc: Global, src: &mut R, out: &mut W) -> Ending
    requires { K.ready work.now }
    ensures ends { Ends (K.reports work.now) (K.refuses work.now)
        (through R.left R.faults src.old src.new)
        (through W.held W.faults out.old out.new) result }
    ensures reads { CallsAtMost (most_bytes + 1) (R.calls src.old) (R.calls src.new) }
{
    let bytes = match read_input(alloc, src) {
        Ok(bytes) => bytes,
        Err(ending) => return ending,
    };
    match work.report(alloc, bytes) {
        Ok(text) => deliver(out, &text),
        Err(refusal) => Ending::NoReport(refusal),
    }
}

/// Does all of a command that follows its words, and answers the status. What is told begins with the program's name.
pub fn perform_as<K: Work, R: Source, W: Sink, E: Sink>(
    program: &[u8],
    work: &K,
    alloc: Global,
    src: &mut R,
    out: &mut W,
    err: &mut E,
) -> u8
    requires { K.ready work.now }
    ensures answer { AnswersAs program.now (K.reports work.now) (K.refuses work.now)
        (through R.left R.faults src.old src.new)
        (through W.held W.faults out.old out.new)
        (through E.held E.faults err.old err.new) result }
    ensures complete { Decides (K.refuses work.now)
        (through R.left R.faults src.old src.new)
        (through W.held W.faults out.old out.new) result }
    ensures reads { CallsAtMost (most_bytes + 1) (R.calls src.old) (R.calls src.new) }
{
    let ending = ending(work, alloc, src, out);
    tell_ending_as(err, program, ending);
    ending.status()
}

/// The same of a command of `syncord`.
pub fn perform<K: Work, R: Source, W: Sink, E: Sink>(
    work: &K,
    alloc: Global,
    src: &mut R,
    out: &mut W,
    err: &mut E,
) -> u8
    requires { K.ready work.now }
    ensures answer { Answers (K.reports work.now) (K.refuses work.now)
        (through R.left R.faults src.old src.new)
        (through W.held W.faults out.old out.new)
        (through E.held E.faults err.old err.new) result }
    ensures complete { Decides (K.refuses work.now)
        (through R.left R.faults src.old src.new)
        (through W.held W.faults out.old out.new) result }
    ensures reads { CallsAtMost (most_bytes + 1) (R.calls src.old) (R.calls src.new) }
{
    perform_as(b"syncord", work, alloc, src, out, err)
}
