//! The queue's opening.
ghost use Rattle.std.specs.Prelude.{◌≡◌, ◌+◌, ◌-◌, ◌<◌, ◌≤◌, ◌++◌, [], true, false, List, length, vec_len, IfOk, IsTrue, All};
ghost use Rattle.crossbeam_queue.specs.Passes.{view, IsPassOf, IsSamePass};
ghost use Rattle.call_queue.specs.Rule.{whole, share, first_share, with_pushed, without_part};
ghost use Rattle.call_queue.specs.declared.rule.Ticket.{Ticket as TicketValue};
ghost use Rattle.call_queue.specs.Tickets.{bare, calls_in, calls_from, ends_from, tickets_of, AreWhole};
ghost use Rattle.call_queue.specs.Queues.{IsFresh, LastHasTheRest};

use crate::queue::{CallQueue, Taker};
use crate::rule::{Line, OnePart, Pushed, Share, Ticket};
use crossbeam_queue::Pass;
use std::alloc::{AllocError, Global};
use std::snapshot::Snapshot;

// Pushes a ticket. False where another thread was in the way, which no one is while the queue is opened.
fn push_one<C: Copy>(
    line: &Line<C>,
    pass: &mut Pass<Ticket<C>, Share<C>>,
    ticket: Ticket<C>,
) -> bool
    requires pass { IsPassOf line.now pass.old × (0 < (view pass.old).parts) }
    requires fills { (view pass.old).fills ≡ true }
    requires place { ticket.at ≡ length (view pass.old).all }
    ensures pass { IsSamePass pass.old pass.new }
    ensures pushed { IsTrue result → view pass.new ≡ with_pushed (view pass.old) ticket }
{
    line.try_push_as::<Pushed>(pass, ticket).is_ok()
}

// Pushes the calls.
fn push_calls<C: Copy>(line: &Line<C>, pass: &mut Pass<Ticket<C>, Share<C>>, calls: &[C]) -> bool
    requires pass { IsPassOf line.now pass.old × (view pass.old ≡ first_share) }
    requires few { length calls.now ≤ 4096 }
    ensures pass { IsSamePass pass.old pass.new }
    ensures full { IsTrue result → view pass.new ≡ share whole true (calls_from 0 calls.now) [] }
{
    for at in 0..calls.len() as u32 {
        let call = Some(calls[at as usize]);
        if !push_one(line, pass, Ticket { at, call }) {
            return false;
        }
    }
    true
}

// Pushes an end for each taker behind so many calls.
fn push_ends<C: Copy>(
    line: &Line<C>,
    pass: &mut Pass<Ticket<C>, Share<C>>,
    calls: u32,
    ends: u32,
) -> bool
    requires pass { IsPassOf line.now pass.old }
    requires filled { (all : List (TicketValue C)) × (length all ≡ calls)
        × (view pass.old ≡ share whole true all []) }
    requires few { (calls ≤ 4096) × (ends ≤ 64) }
    ensures pass { IsSamePass pass.old pass.new }
    ensures full { IsTrue result → view pass.new ≡ share whole true
        ((view pass.old).all ++ ends_from calls ends) [] }
{
    for end in 0..ends {
        let ticket = Ticket {
            at: calls + end,
            call: None,
        };
        if !push_one(line, pass, ticket) {
            return false;
        }
    }
    true
}

// A taker, with one part of what the opener knows.
fn next_taker<C: Copy>(line: &Line<C>, pass: &mut Pass<Ticket<C>, Share<C>>) -> Taker<C>
    requires pass { IsPassOf line.now pass.old × (1 < (view pass.old).parts) }
    requires whole { AreWhole (view pass.old).all }
    ensures pass { IsSamePass pass.old pass.new × (view pass.new ≡ without_part (view pass.old)) }
    ensures taker { result ≡ record {
      queue = pass.old.table_id;
      calls = bare (calls_in (view pass.old).all);
      parts = 1;
      taken = [];
      ended = false;
    } }
{
    let next = line.another::<OnePart>(pass);
    Taker {
        pass: next,
        ended: false,
    }
}

// A taker for each of so many, who took nothing; the last one has the parts that are left.
fn deal<C: Copy>(
    alloc: Global,
    line: &Line<C>,
    mut opener: Pass<Ticket<C>, Share<C>>,
    takers: u32,
) -> Result<Vec<Taker<C>>, AllocError>
    requires pass { IsPassOf line.now opener }
    requires share { ((view opener).parts ≡ whole) × ((view opener).taken ≡ []) }
    requires takers { (0 < takers) × (takers ≤ 64) }
    requires whole { AreWhole (view opener).all }
    ensures count { IfOk result (λ v. vec_len v ≡ takers) }
    ensures rest { IfOk result (λ v. LastHasTheRest v.items) }
    ensures fresh { IfOk result (λ v. All (IsFresh opener.table_id
        (bare (calls_in (view opener).all))) v.items) }
{
    let mut all = Vec::with_capacity(alloc, takers as usize)?;
    for dealt in 1..takers {
        let _ = dealt;
        all.push_reserved(next_taker(line, &mut opener));
    }
    all.push_reserved(Taker {
        pass: opener,
        ended: false,
    });
    Ok(all)
}

impl<C: Copy> CallQueue<C> {
    /// A queue of these calls for so many takers. All memory is taken here.
    pub fn open(
        alloc: Global,
        calls: &[C],
        takers: u32,
    ) -> Result<(CallQueue<C>, Vec<Taker<C>>), AllocError>
        requires few { length calls.now ≤ 4096 }
        requires takers { (0 < takers) × (takers ≤ 64) }
        ensures queue { IfOk result (λ r. (r.0.calls ≡ calls.now) × (r.0.takers ≡ takers)) }
        ensures ends { IfOk result (λ r. r.0.ends ≡ takers) }
        ensures count { IfOk result (λ r. vec_len r.1 ≡ takers) }
        ensures rest { IfOk result (λ r. LastHasTheRest r.1.items) }
        ensures fresh { IfOk result (λ r. All (IsFresh r.0.id r.0.calls) r.1.items) }
    {
        let capacity = calls.len() + takers as usize;
        let (line, mut opener) = Line::ruled(alloc, capacity)?;
        let count = calls.len() as u32;
        if !push_calls(&line, &mut opener, calls) {
            return Err(AllocError);
        }
        if !push_ends(&line, &mut opener, count, takers) {
            return Err(AllocError);
        }
        let filled = Snapshot::of(&opener);
        let all = deal(alloc, &line, opener, takers)?;
        let queue = CallQueue {
            line,
            filled,
            takers,
        };
        Ok((queue, all))
    }
}
