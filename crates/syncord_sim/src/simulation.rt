//! From the bytes of a setup to what is wanted of it, or to the first bad line.
ghost use Rattle.std.specs.Prelude.{Ok, IfOk, IfErr};
ghost use Rattle.syncord_endings.specs.Endings.{Due};
ghost use Rattle.sim_text.specs.Grammar.{ReadsSetup};
ghost use Rattle.sim_text.specs.Setups.{IsWithin};
ghost use Rattle.syncord_sim.specs.Commands.{said, Report, Picture, Schedule};
ghost use Rattle.syncord_sim.specs.Simulations.{Writes, IsNoSetup, Refuses};

use crate::commands::Command;
use sim_chart::picture_of;
use sim_line::{candidate_named, schedule_of};
use sim_report::report_of;
use sim_text::{SetupError, SimSetup, read_setup};
use std::alloc::Global;
use syncord_endings::Refusal;

/// The most passes of a schedule.
const MOST_PASSES: usize = 64;

fn setup_of(alloc: Global, bytes: &[u8]) -> Result<SimSetup, Refusal>
    ensures read { IfOk result (λ s. ReadsSetup bytes.now (Ok s) × IsWithin s) }
    ensures refusal { IfErr result (Due (IsNoSetup bytes.now)) }
{
    match read_setup(alloc, bytes) {
        Ok(setup) => Ok(setup),
        Err(SetupError::Format { line, what }) => Err(Refusal::Line { line, what }),
        Err(SetupError::NoMemory) => Err(Refusal::NoMemory),
    }
}

fn reported(alloc: Global, bytes: &[u8]) -> Result<Vec<u8>, Refusal>
    ensures text { IfOk result (λ text. Writes Report bytes.now text.items) }
    ensures refusal { IfErr result (Due (IsNoSetup bytes.now)) }
{
    let setup = setup_of(alloc, bytes)?;
    match report_of(alloc, &setup) {
        Ok(text) => Ok(text),
        Err(_) => Err(Refusal::NoMemory),
    }
}

fn pictured(alloc: Global, bytes: &[u8]) -> Result<Vec<u8>, Refusal>
    ensures text { IfOk result (λ text. Writes Picture bytes.now text.items) }
    ensures refusal { IfErr result (Due (IsNoSetup bytes.now)) }
{
    let setup = setup_of(alloc, bytes)?;
    match picture_of(alloc, &setup) {
        Ok(text) => Ok(text),
        Err(_) => Err(Refusal::NoMemory),
    }
}

// A setup without a policy of this name is refused at the line behind its policies, one with more passes than a schedule at that of the
// first too many.
fn scheduled(alloc: Global, name: &[u8], bytes: &[u8]) -> Result<Vec<u8>, Refusal>
    ensures text { IfOk result (λ text. Writes (Schedule name.now) bytes.now text.items) }
    ensures refusal { IfErr result (Due (Refuses (Schedule name.now) bytes.now)) }
{
    let setup = setup_of(alloc, bytes)?;
    let policies = setup.policies.len() as u32;
    let Some(candidate) = candidate_named(&setup, name) else {
        return Err(Refusal::Line {
            line: 10 + policies,
            what: 16,
        });
    };
    if setup.passes.len() > MOST_PASSES {
        return Err(Refusal::Line {
            line: 74 + policies,
            what: 17,
        });
    }
    match schedule_of(alloc, &setup, candidate) {
        Ok(text) => Ok(text),
        Err(_) => Err(Refusal::NoMemory),
    }
}

/// What is wanted of the setup that the bytes are.
pub fn simulation(alloc: Global, command: Command<'_>, bytes: &[u8]) -> Result<Vec<u8>, Refusal>
    ensures text { IfOk result (λ text. Writes (said command.entry) bytes.now text.items) }
    ensures refusal { IfErr result (Due (Refuses (said command.entry) bytes.now)) }
{
    match command {
        Command::Report => reported(alloc, bytes),
        Command::Picture => pictured(alloc, bytes),
        Command::Schedule(name) => scheduled(alloc, name, bytes),
    }
}
