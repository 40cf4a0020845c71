//! A schedule: how a lock is opened, and what its passes do.
use bpf_isa::Profile;
use shfl_line::{Attr, Form};
use shfl_policy::Policy;
use std::marker::Model;

/// Who is let into a group: nobody, everybody, the waiters of the asking pass's socket, or those whom programs choose.
#[derive(Drop)]
pub enum Rule {
    Never,
    Always,
    Socket,
    Program(Policy),
}

/// What an event does: it asks for the lock, alone or as a reader, gives it back, or makes a pass's next step.
#[derive(Clone, Copy, Debug, PartialEq, Eq, Drop)]
pub enum Act {
    Write,
    Read,
    Free,
    Step,
}

/// An act of a pass, whose number is at most 63.
#[derive(Clone, Copy, Debug, PartialEq, Eq, Drop)]
pub struct Event {
    pub act: Act,
    pub pass: u8,
}

/// A lock's form, batch limit and policy, the attributes of its passes, and what happens to it.
#[derive(Drop)]
pub struct Schedule {
    /// Of the document: 1, or 2, which names the profile.
    pub version: u8,
    /// The profile by which programs are judged: one in version 1.
    pub profile: Profile,
    pub form: Form,
    /// The largest batch number, 1 to 1,024.
    pub limit: u16,
    /// The policy of `Rule::Program` has the name 0.
    pub rule: Rule,
    pub passes: Vec<Attr>,
    pub events: Vec<Event>,
}

impl Model for Schedule {
    ghost use Rattle.shfl_sched.specs.Schedules.{ScheduleModel};

    ghost Value = { ScheduleModel };

    ghost view = { λ s. record {
      version = s.version;
      profile = s.profile;
      form = s.form;
      limit = s.limit;
      rule = s.rule;
      passes = s.passes.items;
      events = s.events.items;
    } };
}
