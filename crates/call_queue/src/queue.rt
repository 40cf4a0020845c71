//! The queue and its takers.
ghost use Rattle.std.specs.Prelude.{◌≡◌, ◌<◌, ◌∷◌, ◌++◌, [], true, false, slice_get, Some, None, All, IfSome};
ghost use Rattle.crossbeam_queue.specs.Passes.{view, IsPassOf, IsSamePass};
ghost use Rattle.call_queue.specs.Rule.{Takes};

use crate::rule::{Line, Share, Taken, Ticket};
use crossbeam_queue::Pass;
use hist_log::NumberedCall;
use std::marker::Model;
use std::snapshot::Snapshot;
use std::sync::Wait;
use std::thread;

/// Calls that stand in a queue, for takers in threads.
#[derive(Drop)]
pub struct CallQueue<C: Copy> {
    pub(crate) line: Line<C>,
    // What was known when it was filled: all calls.
    pub(crate) filled: Snapshot<Pass<Ticket<C>, Share<C>>>,
    pub(crate) takers: u32,
}

impl<C: Copy> Model for CallQueue<C> {
    ghost use Rattle.crossbeam_queue.specs.Passes.{view as share_of};
    ghost use Rattle.call_queue.specs.Queues.{QueueModel};
    ghost use Rattle.call_queue.specs.Tickets.{bare, calls_in, ends_in};

    ghost Value = { QueueModel C };

    ghost view = { λ q. record {
      id = q.line.table.shared.table_id;
      calls = bare (calls_in (share_of q.filled.value).all);
      ends = ends_in (share_of q.filled.value).all;
      takers = q.takers;
    } };
}

/// A caller's right to take calls from the queue, with some parts of the right to know who took what.
#[derive(Drop)]
pub struct Taker<C: Copy> {
    pub(crate) pass: Pass<Ticket<C>, Share<C>>,
    pub(crate) ended: bool,
}

impl<C: Copy> Model for Taker<C> {
    ghost use Rattle.std.specs.Prelude.{◌≡◌, ◌<◌, []};
    ghost use Rattle.crossbeam_queue.specs.Passes.{view as share_of};
    ghost use Rattle.call_queue.specs.Queues.{TakerModel};
    ghost use Rattle.call_queue.specs.Tickets.{bare, calls_in, has_end, AreWhole};

    ghost Value = { TakerModel C };

    ghost view = { λ t. record {
      queue = t.pass.table_id;
      calls = bare (calls_in (share_of t.pass).all);
      parts = (share_of t.pass).parts;
      taken = calls_in (share_of t.pass).taken;
      ended = t.ended;
    } };

    ghost invariant = { λ t. (t.pass.me.1 ≡ [])
        × (0 < (share_of t.pass).parts)
        × AreWhole (share_of t.pass).all
        × (t.ended ≡ has_end (share_of t.pass).taken) };
}

impl<C: Copy> Taker<C> {
    /// Whether it was answered that no call is left.
    pub fn ended(&self) -> bool
        ensures { result ≡ self.now.ended }
    {
        self.ended
    }
}

// Takes one ticket, and tries again while another thread is in the way. There is one left for who has not ended.
fn take_one<C: Copy, R: Wait>(
    rt: &R,
    line: &Line<C>,
    pass: &mut Pass<Ticket<C>, Share<C>>,
) -> Ticket<C>
    requires { IsPassOf line.now pass.old × (0 < (view pass.old).parts) }
    ensures pass { IsSamePass pass.old pass.new }
    ensures taken { Takes (view pass.old) result (view pass.new) }
{
    for _ in rt.forever() {
        if let Some(ticket) = line.pop_as::<Taken, R>(rt, pass) {
            return ticket;
        }
        thread::yield_now();
    }
    unreachable!()
}

impl<C: Copy> CallQueue<C> {
    /// Takes the next call. `None` comes only where this taker found an end, behind which no call stands, and from then on at
    /// once. Takes no memory.
    pub fn take<R: Wait>(&self, rt: &R, taker: &mut Taker<C>) -> Option<NumberedCall<C>>
        requires queue { taker.old.queue ≡ self.now.id }
        ensures queue { taker.new.queue ≡ taker.old.queue }
        ensures calls { taker.new.calls ≡ taker.old.calls }
        ensures parts { taker.new.parts ≡ taker.old.parts }

        // The call is that of its place, and goes behind those taken before, which stood at earlier places.
        ensures listed { IfSome result (λ c. slice_get taker.old.calls c.at ≡ Some c.call) }
        ensures taken { IfSome result (λ c. taker.new.taken ≡ taker.old.taken ++ c ∷ []) }
        ensures rising { IfSome result (λ c. All (λ b. b.at < c.at) taker.old.taken) }
        ensures going_on { IfSome result (λ _.
            (taker.old.ended ≡ false) × (taker.new.ended ≡ false)) }
        ensures none { result ≡ None →
            (taker.new.ended ≡ true) × (taker.new.taken ≡ taker.old.taken) }
    {
        if taker.ended {
            return None;
        }
        let ticket = take_one(rt, &self.line, &mut taker.pass);
        match ticket.call {
            Some(call) => Some(NumberedCall {
                at: ticket.at,
                call,
            }),
            None => {
                taker.ended = true;
                None
            }
        }
    }
}
