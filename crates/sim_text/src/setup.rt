//! What a setup says: the lock and the machine, what the passes do and for how long, the policies to try, and the passes.
use bpf_isa::Profile;
use shfl_line::{Attr, Form};
use shfl_policy::Policy;
use sim_setup::{BuiltIn, Costs, Layout, Tries, Work};
use std::marker::Model;

/// The lock, and the machine that it stands on.
#[derive(Clone, Copy, Drop)]
pub struct Machine {
    /// The profile by which programs are judged.
    pub profile: Profile,
    pub form: Form,
    /// The largest batch number, 1 to 1,024.
    pub limit: u16,
    pub layout: Layout,
    pub costs: Costs,
}

/// What each pass does, and for how long.
#[derive(Clone, Copy, Drop)]
pub struct Load {
    /// At most 64 lines of data, and at most 1,000 of a thousand calls read.
    pub work: Work,
    pub queueing: Queueing,
    /// The last tick of a run, and the most turns of one, 1 to 100,000,000.
    pub until: u64,
    pub turns: u32,
    pub seeds: Seeds,
}

/// When a pass that calls joins the queue.
#[derive(Clone, Copy, Drop)]
pub enum Queueing {
    /// With its first step, unless that finds the lock free.
    AtOnce,
    /// After so many attempts in vain, at most 1,000.
    After(Tries),
    /// At once under a policy that may move waiters up, and else after a few attempts. The pause after the first is of so many ticks.
    ByPolicy { pause: u32 },
}

/// The seeds with which each policy is run, one after the other.
#[derive(Clone, Copy, Drop)]
pub struct Seeds {
    pub first: u64,
    /// One alone, or 5 to 1,000.
    pub count: u32,
}

/// Who is let into a group: one of three rules that need no program, or those whom the programs of a policy choose.
#[derive(Drop)]
pub enum Rule {
    Simple(BuiltIn),
    Program(Policy),
}

/// A policy to try, and its name: 1 to 32 bytes.
#[derive(Drop)]
pub struct Candidate {
    pub name: Vec<u8>,
    pub rule: Rule,
}

impl Model for Candidate {
    ghost use Rattle.sim_text.specs.Setups.{CandidateModel};

    ghost Value = { CandidateModel };

    ghost view = { λ c. record { name = c.name.items; rule = c.rule } };
}

/// A setup: 1 to 16 policies, and 1 to 1,024 passes with these attributes.
#[derive(Drop)]
pub struct SimSetup {
    pub machine: Machine,
    pub load: Load,
    pub policies: Vec<Candidate>,
    pub passes: Vec<Attr>,
}

impl Model for SimSetup {
    ghost use Rattle.sim_text.specs.Setups.{SetupModel};

    ghost Value = { SetupModel };

    ghost view = { λ s. record {
      machine = s.machine;
      load = s.load;
      policies = s.policies.items;
      passes = s.passes.items;
    } };
}
