//! The log of a user.
ghost use Rattle.std.specs.Prelude.{◌≡◌, ◌↔◌, None, IsTrue};
ghost use Rattle.round_log.specs.Logs.{begun, AddsNote};

use super::{Registry, VersionPass};
use round_log::{Note, RoundLog};
use std::alloc::Global;
use std::mem;

impl VersionPass {
    /// Begins a log, which keeps what the user's policies are told where `keeps` says so.
    pub fn begin_log(&mut self, alloc: Global, keeps: bool)
        ensures { self.new ≡ record self.old { log = begun keeps } }
    {
        self.log = RoundLog::new(alloc, keeps);
    }

    /// Gives the log. Nothing is kept from then on.
    pub fn take_log(&mut self, alloc: Global) -> RoundLog
        ensures log { result ≡ self.old.log }
        ensures pass { self.new ≡ record self.old { log = None } }
    {
        mem::replace(&mut self.log, RoundLog::new(alloc, false))
    }

    /// Its policies were told this.
    pub(crate) fn note(&mut self, note: Note)
        ensures same { self.new ≡ record self.old { log = self.new.log } }
        ensures noted { AddsNote self.old.log self.new.log note }
    {
        self.log.add(note);
    }

    /// Nothing is kept from now on.
    pub(crate) fn forget(&mut self)
        ensures { self.new ≡ record self.old { log = None } }
    {
        self.log.forget();
    }
}

impl Registry {
    /// Whether the two declare the same policies, in the same order.
    pub fn declares_as(&self, other: &Registry) -> bool
        ensures { IsTrue result ↔ self.now.declared ≡ other.now.declared }
    {
        if self.declared.len() != other.declared.len() {
            return false;
        }
        for place in 0..self.declared.len() {
            if !self.declared[place].same(&other.declared[place]) {
                return false;
            }
        }
        true
    }
}
