//! The policy that goes with a seat: attached from bytes, shared with another seat, and asked.
ghost use Rattle.std.specs.Prelude.{◌≡◌, true, false, IfOk, IfErr, None};
ghost use Rattle.shfl_core.specs.Waiting as waiting;
ghost use Rattle.shfl_policy.specs.Loading.{IsLoadError};
ghost use Rattle.shfl_ticket.specs.Attached.{source_of};
ghost use Rattle.shfl_ticket.specs.Tickets.{answer_to};
ghost use Rattle.shfl_seats.specs.Policies.{Attaches};

use crate::ticket::SeatTicket;
use bpf_isa::Profile;
use shfl_policy::LoadError;
use shfl_ticket::{answer_of, loaded, shared};
use std::alloc::Global;
use std::sync::Arc;

impl SeatTicket {
    /// Attaches the policy of these programs in place of the one before; where there are no bytes, that program answers no. A
    /// program that is refused changes nothing. This takes memory, and may come at any time, also while the seat waits.
    pub fn attach(
        &mut self,
        alloc: Global,
        profile: Profile,
        should: &[u8],
        skip: &[u8],
    ) -> Result<(), LoadError>
        ensures ok { IfOk result (λ _.
            Attaches profile (source_of should.now skip.now) self.old self.new) }
        ensures err { IfErr result (IsLoadError profile (source_of should.now skip.now)) }
        ensures unchanged { IfErr result (λ _. self.new ≡ self.old) }
    {
        let policy = loaded(alloc, profile, should, skip)?;
        match shared(alloc, policy) {
            Ok(policy) => {
                self.policy = Some(policy);
                Ok(())
            }
            Err(_) => Err(LoadError::NoMemory),
        }
    }

    /// No policy goes with the seat from now on.
    pub fn detach(&mut self)
        ensures { self.new ≡ record self.old { policy = None } }
    {
        self.policy = None;
    }

    /// Goes over to the policy of another seat, or to none, if that has none: the two share it from now on. False, and nothing changes,
    /// where so many share it that they can't be counted.
    pub fn follow(&mut self, other: &SeatTicket) -> bool
        ensures ok { result ≡ true → self.new ≡ record self.old { policy = other.now.policy } }
        ensures refused { result ≡ false → self.new ≡ self.old }
    {
        match &other.policy {
            None => {
                self.policy = None;
                true
            }
            Some(policy) => match Arc::try_clone(policy) {
                Ok(policy) => {
                    self.policy = Some(policy);
                    true
                }
                Err(_) => false,
            },
        }
    }

    /// What the policy answers to what the next step asks; no, where nothing is asked or there is no policy.
    pub fn answer(&self) -> bool
        ensures { result ≡ answer_to self.now.policy self.now.attr
            (waiting.ask self.now.seat.arena.rules self.now.seat.own) }
    {
        match &self.policy {
            None => false,
            Some(policy) => answer_of(policy, &self.attr, self.ask()),
        }
    }
}
