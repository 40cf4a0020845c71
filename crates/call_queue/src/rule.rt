//! The rule of the queue: who knows what of it, and what each move tells.
use crossbeam_queue::RuledArrayQueue;
use crossbeam_queue::protocol::{Join, Lesson, Outcome, Protocol, Split};
use std::collections::LinkedList;

/// A call at its place in the list of calls. Behind the calls stand the ends, which have no call.
#[derive(Clone, Copy)]
pub struct Ticket<C: Copy> {
    pub at: u32,
    pub call: Option<C>,
}

/// What the opener or a taker knows. No value of it is made.
pub struct Share<C: Copy> {
    /// Its parts of the right to know who took what.
    pub parts: u64,
    /// It may push.
    pub fills: bool,
    /// All tickets, in order.
    pub all: LinkedList<Ticket<C>>,
    /// Those that it took, in order.
    pub taken: LinkedList<Ticket<C>>,
}

/// Each ticket that left the queue is on one list of those taken.
pub struct EachOnce;

impl<C: Copy> Protocol<Ticket<C>, Share<C>> for EachOnce {
    ghost use Rattle.call_queue.specs.Rule.{IsRuled, first_share};

    ghost holds = { IsRuled };

    ghost first = { first_share };
}

/// The ticket is the last of all.
pub struct Pushed;

impl<C: Copy> Outcome<Ticket<C>, Share<C>> for Pushed {
    ghost use Rattle.std.specs.Prelude.{◌≡◌};
    ghost use Rattle.call_queue.specs.Rule.{with_pushed};

    ghost then = { λ v x w. w ≡ with_pushed v x };
}

/// The ticket is the one at its place, behind all that were taken before.
pub struct Taken;

impl<C: Copy> Outcome<Ticket<C>, Share<C>> for Taken {
    ghost use Rattle.call_queue.specs.Rule.{Takes};

    ghost then = { Takes };
}

impl<C: Copy> Lesson<Ticket<C>, Share<C>> for Taken {
    ghost use Rattle.std.specs.Prelude.{⊤};

    ghost fact = { λ v items. ⊤ };
}

/// One part goes to a taker; who gave one pushes no more.
pub struct OnePart;

impl<C: Copy> Split<Share<C>> for OnePart {
    ghost use Rattle.call_queue.specs.Rule.{without_part, one_part};

    ghost left = { without_part };

    ghost right = { one_part };
}

impl<C: Copy> Join<Share<C>> for OnePart {
    ghost use Rattle.call_queue.specs.Rule.{both, spent};

    ghost both = { both };

    ghost spent = { spent };
}

/// What is known to who has every part.
pub struct Whole;

impl<C: Copy> Lesson<Ticket<C>, Share<C>> for Whole {
    ghost use Rattle.call_queue.specs.Rule.{HasTakenAll};

    ghost fact = { HasTakenAll };
}

pub type Line<C> = RuledArrayQueue<Ticket<C>, Share<C>, EachOnce>;
