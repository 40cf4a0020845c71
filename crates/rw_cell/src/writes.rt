//! Writes: the call is made on every copy.
ghost use Rattle.std.specs.Prelude.{◌≡◌, ◌≢◌, ◌+◌, ◌<◌, ◌≤◌, ◌∷◌, ◌++◌, [], true, false, List, map, set, slice_get, length, slice_index, IfOk, OnOk, IfErr, Some};
ghost use Rattle.hist_log.specs.History.{IsLegal, state_left};
ghost use Rattle.shfl_line.specs.declared.events.Mode.TheVariants.{Write};
ghost use Rattle.shfl_core.specs.Plan as plan;
ghost use Rattle.shfl_table.specs.Histories.{actions_by};
ghost use Rattle.shfl_table.specs.Places.{Every};
ghost use Rattle.shfl_table.specs.Queueing.{attempts_before};
ghost use Rattle.shfl_table.specs.Waits.{as_idle, AsksInRounds, FindsMore};
ghost use Rattle.shfl_table.specs.declared.queueing.Queueing.TheVariants.{ByPolicy};
ghost use Rattle.shfl_table.specs.Books.{pack, opening_of, allowed_of, operations_of};
ghost use Rattle.rw_cell.specs.CallOrder.{calls_of};
ghost use Rattle.rw_cell.specs.RwCells.{MakesWrite, number, turned_away, write_after};

use crate::cell::{RwCellOf, RwPass, RwPassOf};
use hist_log::{Entry, Object, Receipt, Trail};
use shfl_line::{Chooser, Mode};
use shfl_table::{ApplyCall, Book, Busy, FollowCall, Pass, SharedBoard, free, wait_for};
use std::sync::Wait;
use syn_outer::{Gate, Point};

// The call on the copy of one place, by a pass that holds the lock for writing: the reply, its place, and where the object made it.
fn write_copy<O: Object + Drop>(
    board: &SharedBoard<Book<O>>,
    pass: &mut Pass<Book<O>>,
    place: u32,
    call: &O::Call,
) -> (O::Reply, u64, Trail)
    requires board { pass.old.board ≡ board.now.id }
    requires holds { plan.is_resting pass.old.own ≡ true }
    requires mode { pass.old.own.reg.mode ≡ Write }
    requires within { (x : _) × (slice_get pass.old.values place ≡ Some (Some x))
        × (pack x.opening x.allowed ≡ pass.old.initial_state)
        × (x.history ≡ pass.old.history) }
    requires room { length (actions_by pass.old.own.reg.me pass.old.history)
        < slice_index (allowed_of pass.old.initial_state) pass.old.own.reg.me }
    requires admitted { O.admits (opening_of pass.old.initial_state) (O.call_numbers call.now) }
    ensures reply { O.reply_numbers result.0
        ≡ O.reply_at (state_left O.state_after (opening_of pass.old.initial_state)
        (operations_of pass.old.history)) (O.call_numbers call.now) }
    ensures place { result.1 ≡ length pass.old.history }
    ensures legal { IsLegal O.reply_at O.state_after (opening_of pass.old.initial_state)
        (operations_of (pass.old.history
        ++ write_after O.reply_at O.state_after pass.old (O.call_numbers call.now) ∷ [])) }
    ensures pass { (y : _) × (pass.new ≡ record pass.old {
      values = set pass.old.values place (Some y);
    })
        × (pack y.opening y.allowed ≡ pass.old.initial_state)
        × (y.history ≡ pass.old.history
        ++ write_after O.reply_at O.state_after pass.old (O.call_numbers call.now) ∷ []) }
{
    let worker = pass.number();
    pass.visit(board, place, ApplyCall::<O> { worker, call })
}

// The call on the copy of another place, which the first copy answered so.
fn follow_copy<O: Object + Drop>(
    board: &SharedBoard<Book<O>>,
    pass: &mut Pass<Book<O>>,
    place: u32,
    call: &O::Call,
    reply: &O::Reply,
    trail: &Trail,
)
    requires board { pass.old.board ≡ board.now.id }
    requires holds { plan.is_resting pass.old.own ≡ true }
    requires mode { pass.old.own.reg.mode ≡ Write }
    requires within { (x : _) × (slice_get pass.old.values place ≡ Some (Some x))
        × (pack x.opening x.allowed ≡ pass.old.initial_state)
        × (x.history ≡ pass.old.history) }
    requires room { length (actions_by pass.old.own.reg.me pass.old.history)
        < slice_index (allowed_of pass.old.initial_state) pass.old.own.reg.me }
    requires admitted { O.admits (opening_of pass.old.initial_state) (O.call_numbers call.now) }
    requires answered { O.reply_numbers reply.now
        ≡ O.reply_at (state_left O.state_after (opening_of pass.old.initial_state)
        (operations_of pass.old.history)) (O.call_numbers call.now) }
    ensures pass { (y : _) × (pass.new ≡ record pass.old {
      values = set pass.old.values place (Some y);
    })
        × (pack y.opening y.allowed ≡ pass.old.initial_state)
        × (y.history ≡ pass.old.history
        ++ write_after O.reply_at O.state_after pass.old (O.call_numbers call.now) ∷ []) }
{
    let worker = pass.number();
    let step = FollowCall::<O> {
        worker,
        call,
        reply,
        trail,
    };
    pass.visit(board, place, step);
}

// The call on every copy, by a pass that holds the lock for writing; it frees the lock.
fn write_and_free<O: Object + Drop>(
    board: &SharedBoard<Book<O>>,
    places: u32,
    pass: &mut Pass<Book<O>>,
    call: &O::Call,
) -> (O::Reply, Receipt)
    requires board { pass.old.board ≡ board.now.id }
    requires some { 0 < places }
    requires holds { plan.is_resting pass.old.own ≡ true }
    requires mode { pass.old.own.reg.mode ≡ Write }
    requires within { (xs : List _) × (pass.old.values ≡ map Some xs) × (length xs ≡ places)
        × Every (λ x. (pack x.opening x.allowed ≡ pass.old.initial_state)
        × (x.history ≡ pass.old.history)) xs }
    requires room { length (actions_by pass.old.own.reg.me pass.old.history)
        < slice_index (allowed_of pass.old.initial_state) pass.old.own.reg.me }
    requires admitted { O.admits (opening_of pass.old.initial_state) (O.call_numbers call.now) }
    ensures place { result.1.place ≡ length pass.old.history }
    ensures legal { IsLegal O.reply_at O.state_after (opening_of pass.old.initial_state)
        (operations_of pass.new.history) }
    ensures pass { pass.new ≡ record pass.old {
      own = as_idle pass.old.own;
      steps_taken = pass.old.steps_taken + 1;
      found = pass.new.found;
      values = [];
      history = pass.old.history ++ record {
        worker = pass.old.own.reg.me;
        call = O.call_numbers call.now;
        reply = O.reply_numbers result.0;
      } ∷ [];
    } }
    ensures finds { FindsMore pass.old.found pass.new.found }
{
    let (reply, place, trail) = write_copy(board, pass, 0, call);
    for k in 1..places {
        follow_copy(board, pass, k, call, &reply, &trail);
    }
    free(board, pass);
    (reply, Receipt { place })
}

impl<O: Object + Drop> RwCellOf<Book<O>, Entry<O>, O> {
    /// Makes a write by one try at the lock, and waits for nobody. Takes no memory.
    pub fn try_write(
        &self,
        pass: &mut RwPass<O>,
        call: &O::Call,
    ) -> Result<(O::Reply, Receipt), Busy>
        requires cell { pass.old.cell ≡ self.now.id }
        requires left { 0 < pass.old.left }
        requires admitted { O.admits pass.old.opening (O.call_numbers call.now) }
        ensures made { IfOk result (λ r. MakesWrite O.reply_at O.state_after pass.old (record {
          worker = number pass.old;
          call = O.call_numbers call.now;
          reply = O.reply_numbers r.0;
        }) r.1.place pass.new) }
        ensures last { IfOk result (λ r. calls_of O.call_numbers O.reply_numbers pass.new
            ≡ calls_of O.call_numbers O.reply_numbers pass.old ++ record {
              worker = number pass.old;
              call = O.call_numbers call.now;
              reply = O.reply_numbers r.0;
            } ∷ []) }
        ensures mode { OnOk result (pass.new.reg.mode ≡ Write) }
        ensures steps { OnOk result (pass.new.steps_taken ≡ pass.old.steps_taken + 2) }
        ensures finds { OnOk result (FindsMore pass.old.found pass.new.found) }
        ensures asks_nobody { OnOk result (pass.new.decisions ≡ pass.old.decisions) }
        ensures tried { OnOk result (pass.new.attempts ≡ pass.old.attempts + 1) }
        ensures busy { IfErr result (λ busy. busy.word ≢ 0) }
        ensures turned_away { IfErr result (λ busy.
            pass.new ≡ turned_away Write busy.word [] pass.old) }
    {
        let RwPassOf {
            before: _,
            pass,
            left,
            attr: _,
            reads: _,
            after: _,
        } = pass;
        if let Err(word) = pass.attempt(&self.board, Mode::Write) {
            return Err(Busy { word });
        }
        *left -= 1;
        Ok(write_and_free(&self.board, self.places, pass, call))
    }

    /// Takes the lock, makes the write on every copy and frees the lock. The gate is called before
    /// the lock is asked for, while the pass waits in the queue, while it holds the lock, and after
    /// it freed it. Where the chooser may move waiters it queues at once; else it tries before, at
    /// most 1,000 times, and sleeps in between. Takes no memory.
    pub fn write<C: Chooser, G: Gate, Rt: Wait>(
        &self,
        rt: &Rt,
        pass: &mut RwPass<O>,
        chooser: &mut C,
        gate: &G,
        call: &O::Call,
    ) -> (O::Reply, Receipt)
        requires cell { pass.old.cell ≡ self.now.id }
        requires left { 0 < pass.old.left }
        requires admitted { O.admits pass.old.opening (O.call_numbers call.now) }
        ensures made { MakesWrite O.reply_at O.state_after pass.old (record {
          worker = number pass.old;
          call = O.call_numbers call.now;
          reply = O.reply_numbers result.0;
        }) result.1.place pass.new }
        ensures last { calls_of O.call_numbers O.reply_numbers pass.new
            ≡ calls_of O.call_numbers O.reply_numbers pass.old ++ record {
              worker = number pass.old;
              call = O.call_numbers call.now;
              reply = O.reply_numbers result.0;
            } ∷ [] }

        // The lock was held for writing.
        ensures mode { pass.new.reg.mode ≡ Write }
        ensures finds { FindsMore pass.old.found pass.new.found }
        ensures tried { pass.new.attempts
            ≤ pass.old.attempts + attempts_before ByPolicy (C.moves_waiters chooser.old) }
        ensures asked { AsksInRounds pass.old.attr pass.old.decisions pass.new.decisions
            (C.told chooser.old) (C.told chooser.new) }
        ensures home { C.home chooser.new ≡ C.home chooser.old }
        ensures in_round { C.in_round chooser.old ≡ false → C.in_round chooser.new ≡ false }
    {
        let RwPassOf {
            before: _,
            pass,
            left,
            attr,
            reads: _,
            after: _,
        } = pass;
        gate.at(rt, pass.number(), Point::BeforeCall);
        wait_for(rt, &self.board, pass, Mode::Write, attr, chooser, gate);
        gate.at(rt, pass.number(), Point::Holding);
        *left -= 1;
        let answer = write_and_free(&self.board, self.places, pass, call);
        gate.at(rt, pass.number(), Point::AfterCall);
        answer
    }
}
