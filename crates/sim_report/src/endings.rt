//! How the run of a policy ends.
ghost use Rattle.std.specs.Prelude.{◌≡◌, ◌≤◌, length, IfOk};
ghost use Rattle.sim_report.specs.Endings as endings;
ghost use Rattle.sim_report.specs.Tallies.{rising};
ghost use Rattle.sim_text.specs.Setups.{IsWithin};

use shfl_core::Rules;
use shfl_line::NoMemory;
use sim_model::{Bench, is_cut, simulate, time_reached};
use sim_setup::{Setup, cores_of};
use sim_text::{Rule, SimSetup, tries_of};
use std::alloc::Global;
use std::marker::Model;

/// What a run of a rule with this seed is set up with.
pub fn run_setup(setup: &SimSetup, seed: u64, rule: &Rule) -> Setup
    requires { length setup.now.passes ≤ 1024 }
    ensures { result ≡ endings.run_setup setup.now seed rule.now }
{
    Setup {
        rules: Rules {
            limit: setup.machine.limit,
            form: setup.machine.form,
        },
        layout: setup.machine.layout,
        costs: setup.machine.costs,
        work: setup.load.work,
        tries: tries_of(setup.load.queueing, rule),
        until: setup.load.until,
        seed,
        passes: setup.passes.len() as u32,
        cores: cores_of(setup.passes.as_slice()),
    }
}

/// Numbers in rising order.
pub fn in_order(waits: Vec<u64>) -> Result<Vec<u64>, NoMemory>
    ensures { IfOk result (λ v. v.items ≡ rising waits.items) }
{
    let mut waits = waits;
    waits.sort()?;
    Ok(waits)
}

/// How the run of a policy ended.
#[derive(Drop)]
pub struct Ended {
    pub bench: Bench,
    /// In rising order.
    pub waits: Vec<u64>,
    /// Whether it had turns left.
    pub cut: bool,
    /// Up to when it had come.
    pub time: u64,
}

impl Model for Ended {
    ghost use Rattle.sim_report.specs.Endings.{EndedModel};

    ghost Value = { EndedModel };

    ghost view = { λ e. record {
      bench = e.bench;
      waits = e.waits.items;
      cut = e.cut;
      time = e.time;
    } };
}

/// The run of a rule with this seed.
pub fn run_of(alloc: Global, setup: &SimSetup, seed: u64, rule: &Rule) -> Result<Ended, NoMemory>
    requires { IsWithin setup.now }
    ensures { IfOk result (λ e. e ≡ endings.ended setup.now seed rule.now) }
{
    let lock = run_setup(setup, seed, rule);
    let attrs = setup.passes.as_slice();
    let run = simulate(alloc, &lock, attrs, rule, setup.load.turns)?;
    let cut = is_cut(&lock, &run.bench);
    let time = time_reached(&lock, &run.bench);
    let bench = run.bench;
    let waits = in_order(run.waits)?;
    Ok(Ended {
        bench,
        waits,
        cut,
        time,
    })
}
