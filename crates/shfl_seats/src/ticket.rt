//! A seat with its share of the arena, its attributes and its policy.
ghost use Rattle.std.specs.Prelude.{◌≡◌, None};
ghost use Rattle.shfl_core.specs.Plan as plan;
ghost use Rattle.shfl_core.specs.Waiting as waiting;
ghost use Rattle.shfl_arena.specs.Threads.{mode_held};
ghost use Rattle.shfl_policy.specs.Policies.{no_waiter};

use crate::kept::KeptSeat;
use shfl_arena::Arena;
use shfl_core::{Ask, Watch};
use shfl_line::{Attr, Mode};
use shfl_policy::Policy;
use std::alloc::Global;
use std::marker::Model;
use std::sync::Arc;

/// What the tickets of one arena have in common.
#[derive(Drop)]
pub(crate) struct Share {
    pub(crate) arena: Arena<()>,
    pub(crate) locks: u32,
}

/// A caller's right to use the locks of an arena, one thread at a time. The arena lives as long as one of its tickets.
#[derive(Drop)]
pub struct SeatTicket {
    pub(crate) share: Arc<Share, Global>,
    pub(crate) attr: Attr,
    pub(crate) policy: Option<Arc<Policy, Global>>,
    pub(crate) seat: KeptSeat,
}

impl Model for SeatTicket {
    ghost use Rattle.std.specs.Prelude.{◌≡◌, option_map};
    ghost use Rattle.shfl_seats.specs.Tickets.{TicketModel};

    ghost Value = { TicketModel };

    ghost view = { λ t. record {
      seat = t.seat;
      attr = t.attr;
      policy = option_map (λ p. p.value) t.policy;
    } };

    ghost invariant = { λ t. (t.seat.arena ≡ t.share.value.arena.id)
        × (t.seat.arena.table.slots ≡ 0)
        × (t.seat.arena.shape.locks ≡ t.share.value.locks) };
}

/// The attributes of a thread that has none.
pub(crate) fn no_attributes() -> Attr
    ensures { result ≡ no_waiter }
{
    Attr {
        socket: 0,
        prio: 0,
        class: 0,
        kind: 0,
    }
}

impl SeatTicket {
    /// A seat of this arena, of a thread with no attributes.
    pub(crate) fn new(share: Arc<Share, Global>, seat: KeptSeat) -> SeatTicket
        requires arena { seat.arena ≡ share.value.arena.id }
        requires no_values { seat.arena.table.slots ≡ 0 }
        requires locks { seat.arena.shape.locks ≡ share.value.locks }
        ensures { result ≡ record { seat = seat; attr = no_waiter; policy = None } }
    {
        SeatTicket {
            share,
            attr: no_attributes(),
            policy: None,
            seat,
        }
    }

    /// The seat's place among those of its arena, from 0 on.
    pub fn number(&self) -> u32
        ensures { result ≡ self.now.seat.own.reg.me }
    {
        self.seat.number()
    }

    /// How the seat holds this lock, if it does.
    pub fn hold(&self, lock: u32) -> Option<Mode>
        ensures { result ≡ mode_held lock self.now.seat.holds }
    {
        self.seat.hold(lock)
    }

    /// Whether the seat has a step to make.
    #[inline(always)]
    pub fn moving(&self) -> bool
        ensures { result ≡ plan.moving self.now.seat.own }
    {
        self.seat.moving()
    }

    /// What the next step asks the policy.
    pub fn ask(&self) -> Ask
        ensures { result ≡ waiting.ask self.now.seat.arena.rules self.now.seat.own }
    {
        self.seat.ask()
    }

    /// Whom the next step may make ready or group, and so wake.
    pub fn watch(&self) -> Watch
        ensures { result ≡ waiting.watch_at self.now.seat.own.reg self.now.seat.own.phase }
    {
        self.seat.watch()
    }
}
