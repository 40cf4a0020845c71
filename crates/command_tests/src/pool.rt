//! Which bytes are refused, with a runner that gives up on every trace.
ghost use Rattle.std.specs.Prelude.{IfOk};
ghost use Rattle.syncord_pool.specs.Runs.{MayRun, IsRunOf};

use crate::outcomes::{Outcome, bytes_of, sink};
use std::alloc::Global;
use std::process::Abort;
use syn_outer::{SureSink, SureSource};
use syncord_pool::{PoolManner, PoolRun, run_pool};
use trace_text::{NoMemory, Trace};

// By nobody.
struct Unpooled;

impl PoolManner for Unpooled {
    ghost ran = { λ t history. Unit {0} };
}

// Lacks memory for every trace.
fn gives_up(_alloc: Global, trace: &Trace) -> Result<PoolRun, NoMemory>
    requires { MayRun trace.now }
    ensures { IfOk result (IsRunOf (λ t history. Unit {0}) trace.now) }
{
    let _ = trace;
    Err(NoMemory)
}

const TWO_MAKES: &str =
    "syncord-trace 1\nworker 0 0 0 0\npolicy none - -\ncalls\n0 make 0 a\n0 make 0 a\n";

const ATTACHED: &str =
    "syncord-trace 1\nworker 0 0 0 0\npolicy none - -\ncalls\n0 make 0 a\n0 attach none\n";

// A second worker's attachment is no call line at all.
const BAD_ATTACH: &str =
    "syncord-trace 1\nworker 0 0 0 0\npolicy none - -\ncalls\n0 attach none\n1 attach none\n";

// A function that may abort can't hand on another one.
fn given_up(alloc: Global, bytes: Vec<u8>, out: &mut SureSink, err: &mut SureSink) -> u8 {
    let mut src = SureSource::new(bytes);
    run_pool::<Unpooled, _, _, _, _>(&gives_up, alloc, &mut src, out, err)
}

fn pooled(rt: &impl Abort, alloc: Global, input: &str) -> Outcome {
    let mut out = sink(rt, alloc, 100);
    let mut err = sink(rt, alloc, 100);
    let bytes = bytes_of(rt, alloc, input.as_bytes());
    let status = given_up(alloc, bytes, &mut out, &mut err);
    Outcome { status, out, err }
}

#[test]
fn bad_lines_are_told(rt: HostRuntime) {
    let alloc = rt.alloc();
    pooled(&rt, alloc, "").refuses(&rt, 1, "syncord: line 1: fault 2\n");
    pooled(&rt, alloc, ATTACHED).refuses(&rt, 1, "syncord: line 6: fault 17\n");
    pooled(&rt, alloc, BAD_ATTACH).refuses(&rt, 1, "syncord: line 6: fault 11\n");
    pooled(&rt, alloc, TWO_MAKES).refuses(&rt, 5, "");
}
