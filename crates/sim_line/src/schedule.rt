//! The first events of a policy's run as a schedule.
ghost use Rattle.std.specs.Prelude.{◌≡◌, ◌≤◌, ◌++◌, length, IfOk, OnOk};
ghost use Rattle.sim_line.specs.ScheduleTexts as texts;
ghost use Rattle.sim_line.specs.ScheduleTexts.{schedule_text};
ghost use Rattle.sim_text.specs.Setups.{IsWithin};

use crate::events::{Event, first_events};
use bpf_isa::{Profile, encode};
use bpf_verifier::Program;
use lock_words::form_name;
use policy_text::{NoMemory, push_attr, push_heading, push_program};
use shfl_line::{Attr, Form};
use sim_report::{push_figure, run_setup};
use sim_setup::BuiltIn;
use sim_text::{Candidate, Rule, SimSetup};
use std::alloc::{AllocError, Global};

/// The most events of a schedule.
const MOST_EVENTS: usize = 65_536;

fn simple_line(rule: BuiltIn) -> &'static [u8]
    ensures { result.now ≡ texts.simple_text rule }
{
    match rule {
        BuiltIn::Never => b"policy never\n",
        BuiltIn::Always => b"policy always\n",
        BuiltIn::Socket => b"policy socket\n",
    }
}

#[tactic(auto, unfolding(crate::specs::ScheduleTexts::program_text))]
fn push_code(alloc: Global, out: &mut Vec<u8>, program: &Option<Program>) -> Result<(), NoMemory>
    ensures { OnOk result (out.new.items ≡ out.old.items ++ texts.program_text program.now) }
{
    let bytes = match program {
        None => None,
        Some(program) => match encode(alloc, program.insns()) {
            Ok(bytes) => Some(bytes),
            Err(_) => return Err(NoMemory),
        },
    };
    push_program(alloc, out, &bytes)
}

#[tactic(auto, unfolding(crate::specs::ScheduleTexts::programs_text))]
fn push_programs(
    alloc: Global,
    out: &mut Vec<u8>,
    should: &Option<Program>,
    skip: &Option<Program>,
) -> Result<(), NoMemory>
    ensures { OnOk result (out.new.items
        ≡ out.old.items ++ texts.programs_text should.now skip.now) }
{
    out.extend_from_slice(b"policy program")?;
    push_code(alloc, out, should)?;
    push_code(alloc, out, skip)?;
    out.extend_from_slice(b"\n")?;
    Ok(())
}

fn push_rule(alloc: Global, out: &mut Vec<u8>, rule: &Rule) -> Result<(), NoMemory>
    ensures { OnOk result (out.new.items ≡ out.old.items ++ texts.rule_text rule.now) }
{
    match rule {
        Rule::Simple(rule) => {
            out.extend_from_slice(simple_line(*rule))?;
            Ok(())
        }
        Rule::Program(policy) => {
            push_programs(alloc, out, policy.should_program(), policy.skip_program())
        }
    }
}

fn push_event(out: &mut Vec<u8>, event: Event) -> Result<(), AllocError>
    ensures { OnOk result (out.new.items ≡ out.old.items ++ texts.event_text event) }
{
    match event {
        Event::Write(pass) => push_figure(out, b"write ", u64::from(pass))?,
        Event::Read(pass) => push_figure(out, b"read ", u64::from(pass))?,
        Event::Free(pass) => push_figure(out, b"free ", u64::from(pass))?,
        Event::Step(pass) => push_figure(out, b"step ", u64::from(pass))?,
    }
    out.extend_from_slice(b"\n")
}

#[tactic(auto, unfolding(crate::specs::ScheduleTexts::title_text))]
fn push_title(out: &mut Vec<u8>, profile: Profile) -> Result<(), NoMemory>
    ensures { OnOk result (out.new.items ≡ out.old.items ++ texts.title_text profile) }
{
    push_heading(out, b"shfl-line", 2, profile)
}

#[tactic(auto, unfolding(crate::specs::ScheduleTexts::lock_text))]
fn push_lock(out: &mut Vec<u8>, form: Form, limit: u16) -> Result<(), AllocError>
    ensures { OnOk result (out.new.items ≡ out.old.items ++ texts.lock_text form limit) }
{
    out.extend_from_slice(b"form ")?;
    out.extend_from_slice(form_name(form))?;
    push_figure(out, b"\nlimit ", u64::from(limit))?;
    out.extend_from_slice(b"\n")
}

#[tactic(auto, unfolding(crate::specs::ScheduleTexts::front_text))]
fn push_front(
    alloc: Global,
    out: &mut Vec<u8>,
    setup: &SimSetup,
    rule: &Rule,
) -> Result<(), NoMemory>
    ensures { OnOk result (out.new.items ≡ out.old.items ++ texts.front_text setup.now rule.now) }
{
    push_title(out, setup.machine.profile)?;
    push_lock(out, setup.machine.form, setup.machine.limit)?;
    push_rule(alloc, out, rule)
}

// The events behind what stands there.
#[tactic(auto, unfolding(crate::specs::ScheduleTexts::events_text))]
fn push_events(out: &mut Vec<u8>, events: &[Event]) -> Result<(), AllocError>
    ensures { OnOk result (out.new.items ≡ out.old.items ++ texts.events_text events.now) }
{
    for event in events {
        push_event(out, *event)?;
    }
    Ok(())
}

// The passes behind what stands there.
#[tactic(auto, unfolding(crate::specs::ScheduleTexts::passes_text))]
fn push_passes(out: &mut Vec<u8>, attrs: &[Attr]) -> Result<(), NoMemory>
    ensures { OnOk result (out.new.items ≡ out.old.items ++ texts.passes_text attrs.now) }
{
    for attr in attrs {
        push_attr(out, b"pass", attr)?;
    }
    Ok(())
}

// The first events of the run of a rule.
#[tactic(auto, unfolding(crate::specs::ScheduleTexts::run_events))]
fn run_events(alloc: Global, setup: &SimSetup, rule: &Rule) -> Result<Vec<Event>, NoMemory>
    requires within { IsWithin setup.now }
    requires few { length setup.now.passes ≤ 64 }
    ensures { IfOk result (λ v. v.items ≡ texts.run_events setup.now rule.now) }
{
    let lock = run_setup(setup, setup.load.seeds.first, rule);
    let attrs = setup.passes.as_slice();
    let turns = setup.load.turns;
    match first_events(alloc, &lock, attrs, rule, turns, MOST_EVENTS) {
        Ok(events) => Ok(events),
        Err(_) => Err(NoMemory),
    }
}

/// The lock of the setup with this policy, its passes, and the first events of its run, as a schedule. One has at most 64 passes.
#[tactic(auto, unfolding(crate::specs::ScheduleTexts::schedule_text))]
pub fn schedule_of(
    alloc: Global,
    setup: &SimSetup,
    candidate: &Candidate,
) -> Result<Vec<u8>, NoMemory>
    requires within { IsWithin setup.now }
    requires few { length setup.now.passes ≤ 64 }
    ensures { IfOk result (λ text. text.items ≡ schedule_text setup.now candidate.now) }
{
    let events = run_events(alloc, setup, &candidate.rule)?;
    let mut out = Vec::new(alloc);
    push_front(alloc, &mut out, setup, &candidate.rule)?;
    push_passes(&mut out, setup.passes.as_slice())?;
    out.extend_from_slice(b"events\n")?;
    push_events(&mut out, events.as_slice())?;
    Ok(out)
}
