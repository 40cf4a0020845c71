//! The interpreter.
ghost use Rattle.std.specs.Prelude.{◌≡◌, ◌+◌, ◌≤◌, ◌<◌, length};
ghost use Rattle.bpf_isa.specs.WellFormed.{IsWellFormed};
ghost use Rattle.bpf_run.specs.Meaning.{outcome};

use crate::flow::Flow;
use crate::step::step;
use crate::steps::Steps;
use bpf_isa::Insn;
use bpf_verifier::Program;
use std::marker::Brand;
use std::sync::ledger::{Blank, Ledger};

/// What a run came to: register 0 at the exit, and how many instructions were run, a wide load being one.
#[derive(Clone, Copy, Debug, PartialEq, Eq)]
pub struct Ran {
    pub value: u64,
    pub count: u64,
}

/// Runs the instructions from the first on. A step is counted for each instruction, a wide load being one.
fn run_insns<L: Ledger>(insns: &[Insn], context: &[u8; 40], steps: &mut Steps<L>) -> Ran
    requires { IsWellFormed insns.now }
    ensures value { result.value ≡ (outcome insns.now context.now).value }
    ensures counted { result.count ≡ (outcome insns.now context.now).count }
    ensures count { steps.new ≡ steps.old + (outcome insns.now context.now).count }
    ensures bounded { steps.new ≤ steps.old + length insns.now }
{
    let mut regs = [0u64; 10];
    let mut at: usize = 0;
    let mut count: u64 = 0;
    while at < insns.len() {
        steps.tick();
        count += 1;
        match step(&insns[at], &mut regs, context) {
            Flow::End(value) => return Ran { value, count },
            Flow::Past(skip) => at += 1 + skip as usize,
        }
    }
    Ran { value: 0, count }
}

/// The program's value on a context: register 0 at the exit. A step is counted for each instruction that is run, a wide
/// load being one, and so at most one for each slot.
pub fn run<L: Ledger>(program: &Program, context: &[u8; 40], steps: &mut Steps<L>) -> u64
    ensures value { result ≡ (outcome program.now context.now).value }
    ensures count { steps.new ≡ steps.old + (outcome program.now context.now).count }
    ensures bounded { steps.new ≤ steps.old + length program.now }
{
    run_insns(program.insns(), context, steps).value
}

fn counted_from<L: Ledger>(program: &Program, context: &[u8; 40], blank: Blank) -> Ran
    requires name { blank.name ≡ L.name }
    requires parts { blank.parts ≡ L.parts }
    requires some { 0 < L.parts }
    ensures value { result.value ≡ (outcome program.now context.now).value }
    ensures count { result.count ≡ (outcome program.now context.now).count }
{
    let mut steps = Steps::<L>::open(blank);
    run_insns(program.insns(), context, &mut steps)
}

/// The program's value on a context, and how many instructions are run, for a caller that has use for the number.
pub fn counted(program: &Program, context: &[u8; 40]) -> Ran
    ensures value { result.value ≡ (outcome program.now context.now).value }
    ensures count { result.count ≡ (outcome program.now context.now).count }
{
    counted_from::<Brand>(program, context, Blank::new(1))
}

/// The program's value on a context, for a caller that counts no steps.
pub fn value(program: &Program, context: &[u8; 40]) -> u64
    ensures { result ≡ (outcome program.now context.now).value }
{
    counted(program, context).value
}
