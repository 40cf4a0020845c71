//! A pass, and what it shares with the other passes of its lock.
ghost use Rattle.std.specs.Prelude.{◌≡◌, ◌<◌, length, slice_index};
ghost use Rattle.shfl_line.specs.Words.{attr_of};
ghost use Rattle.shfl_core.specs.Plan as plan;
ghost use Rattle.shfl_core.specs.Waiting as waiting;
ghost use Rattle.shfl_ticket.specs.Tickets.{AsksOfCandidate, ticket_of};

use shfl_core::{Ask, Nap, Phase, Watch};
use shfl_line::Attr;
use shfl_policy::Policy;
use shfl_table::{Pass, SharedBoard};
use std::alloc::Global;
use std::marker::Model;
use std::sync::Arc;

/// What tickets of one lock have in common. One that has a policy attached has a share of its own, over the same board.
#[derive(Drop)]
pub(crate) struct Share {
    pub board: Arc<SharedBoard<()>, Global>,
    // The attributes of each pass, as words.
    pub words: Arc<Vec<u64>, Global>,
    pub policy: Option<Policy>,
}

/// A caller's right to use a lock. The lock lives as long as one of its tickets.
#[derive(Drop)]
pub struct Ticket {
    pub(crate) share: Arc<Share, Global>,
    pub(crate) pass: Pass<()>,
}

// A lock has many of them, each in a block of its own.
const _: () = prove!(size_of::<Ticket>() <= 88);

impl Model for Ticket {
    ghost use Rattle.std.specs.Prelude.{◌≡◌, ◌<◌, length, slice_index};
    ghost use Rattle.shfl_line.specs.Words.{attr_of};
    ghost use Rattle.shfl_ticket.specs.Tickets.{TicketModel, ticket_of};

    ghost Value = { TicketModel };

    ghost view = { λ t. ticket_of t.pass
        (attr_of (slice_index t.share.value.words.value.items t.pass.own.reg.me))
        t.share.value.policy };

    ghost invariant = { λ t. (t.pass.board ≡ t.share.value.board.value.id)
        × (t.pass.board.table.slots ≡ 0)
        × (t.pass.own.reg.me < length t.share.value.words.value.items) };
}

impl Ticket {
    /// A pass of this board.
    pub(crate) fn new(share: Arc<Share, Global>, pass: Pass<()>) -> Ticket
        requires board { pass.board ≡ share.value.board.value.id }
        requires no_values { pass.board.table.slots ≡ 0 }
        requires place { pass.own.reg.me < length share.value.words.value.items }
        ensures { result ≡ ticket_of pass
            (attr_of (slice_index share.value.words.value.items pass.own.reg.me))
            share.value.policy }
    {
        Ticket { share, pass }
    }

    /// The attributes of the pass.
    pub(crate) fn attr(&self) -> Attr
        ensures { result ≡ self.now.attr }
    {
        Attr::unpack(self.share.words.as_slice()[self.pass.number() as usize])
    }

    /// The pass's place among those of its lock, from 0 on.
    pub fn number(&self) -> u32
        ensures { result ≡ self.now.own.reg.me }
    {
        self.pass.number()
    }

    /// Whether the pass holds the lock.
    #[inline(always)]
    pub fn held(&self) -> bool
        ensures { result ≡ plan.is_held self.now.own.phase }
    {
        self.pass.held()
    }

    /// Whether the pass neither holds nor wants the lock.
    pub fn idle(&self) -> bool
        ensures { result ≡ plan.is_idle self.now.own.phase }
    {
        matches!(self.pass.phase(), Phase::Idle)
    }

    /// Whether the pass holds the lock and owes no step.
    pub fn resting(&self) -> bool
        ensures { result ≡ plan.is_resting self.now.own }
    {
        self.pass.held() && matches!(self.pass.nap(), Nap::Awake)
    }

    /// Whether the pass has a step to make.
    #[inline(always)]
    pub fn moving(&self) -> bool
        ensures { result ≡ plan.moving self.now.own }
    {
        self.pass.moving()
    }

    /// What the next step asks the policy. A question of a candidate tells the attributes with which the candidate was opened.
    pub fn ask(&self) -> Ask
        ensures answer { result ≡ waiting.ask self.now.board.rules self.now.own }
        ensures candidate { AsksOfCandidate self.now }
    {
        self.pass.ask()
    }

    /// Whom the next step may make ready or group, and so wake.
    pub fn watch(&self) -> Watch
        ensures { result ≡ waiting.watch_at self.now.own.reg self.now.own.phase }
    {
        self.pass.watch()
    }
}
