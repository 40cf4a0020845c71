//! Calls of the object behind the lock.
ghost use Rattle.std.specs.Prelude.{◌≡◌, ◌≢◌, ◌+◌, ◌<◌, ◌≤◌, ◌∷◌, ◌++◌, [], true, false, length, slice_index, IfOk, OnOk, IfErr, Some};
ghost use Rattle.hist_log.specs.History.{IsLegal};
ghost use Rattle.shfl_line.specs.declared.events.Mode.TheVariants.{Write};
ghost use Rattle.shfl_core.specs.Plan as plan;
ghost use Rattle.shfl_table.specs.Histories.{actions_by};
ghost use Rattle.shfl_table.specs.Queueing.{attempts_before};
ghost use Rattle.shfl_table.specs.Waits.{as_idle, AsksInRounds, FindsMore};
ghost use Rattle.shfl_table.specs.declared.queueing.Queueing.TheVariants.{ByPolicy};
ghost use Rattle.shfl_table.specs.Books.{pack, opening_of, allowed_of, operations_of};
ghost use Rattle.shfl_cell.specs.Cells.{MakesCall, number, turned_away};

use crate::cell::{CellPass, CellPassOf, ShflCellOf};
use hist_log::{Object, Receipt};
use shfl_line::{Chooser, Mode};
use shfl_table::{ApplyCall, Book, Busy, Pass, SharedBoard, free, wait_for};
use std::sync::Wait;
use syn_outer::{Gate, Point};

// The call, by a pass that holds the lock; it frees the lock.
fn call_and_free<O: Object + Drop>(
    board: &SharedBoard<Book<O>>,
    pass: &mut Pass<Book<O>>,
    call: &O::Call,
) -> (O::Reply, Receipt)
    requires board { pass.old.board ≡ board.now.id }
    requires holds { plan.is_resting pass.old.own ≡ true }
    requires mode { pass.old.own.reg.mode ≡ Write }
    requires within { (x : _) × (pass.old.values ≡ Some x ∷ [])
        × (pack x.opening x.allowed ≡ pass.old.initial_state)
        × (x.history ≡ pass.old.history) }
    requires room { length (actions_by pass.old.own.reg.me pass.old.history)
        < slice_index (allowed_of pass.old.initial_state) pass.old.own.reg.me }
    requires admitted { O.admits (opening_of pass.old.initial_state) (O.call_numbers call.now) }
    ensures place { result.1.place ≡ length pass.old.history }
    ensures legal { IsLegal O.reply_at O.state_after (opening_of pass.old.initial_state)
        (operations_of pass.new.history) }
    ensures pass { pass.new ≡ record pass.old {
      own = as_idle pass.old.own;
      steps_taken = pass.old.steps_taken + 1;
      found = pass.new.found;
      values = [];
      history = pass.old.history ++ record {
        worker = pass.old.own.reg.me;
        call = O.call_numbers call.now;
        reply = O.reply_numbers result.0;
      } ∷ [];
    } }
    ensures finds { FindsMore pass.old.found pass.new.found }
{
    let worker = pass.number();
    let (reply, place, _) = pass.visit(board, 0, ApplyCall::<O> { worker, call });
    free(board, pass);
    (reply, Receipt { place })
}

impl<O: Object + Drop> ShflCellOf<Book<O>> {
    /// Makes a call by one try at the lock, and waits for nobody. Takes no memory.
    pub fn try_apply(
        &self,
        pass: &mut CellPass<O>,
        call: &O::Call,
    ) -> Result<(O::Reply, Receipt), Busy>
        requires cell { pass.old.cell ≡ self.now.id }
        requires left { 0 < pass.old.left }
        requires admitted { O.admits pass.old.opening (O.call_numbers call.now) }
        ensures made { IfOk result (λ r. MakesCall O.reply_at O.state_after pass.old (record {
          worker = number pass.old;
          call = O.call_numbers call.now;
          reply = O.reply_numbers r.0;
        }) r.1.place pass.new) }
        ensures steps { OnOk result (pass.new.steps_taken ≡ pass.old.steps_taken + 2) }
        ensures finds { OnOk result (FindsMore pass.old.found pass.new.found) }
        ensures asks_nobody { OnOk result (pass.new.decisions ≡ pass.old.decisions) }
        ensures tried { OnOk result (pass.new.attempts ≡ pass.old.attempts + 1) }
        ensures busy { IfErr result (λ busy. busy.word ≢ 0) }
        ensures turned_away { IfErr result (λ busy.
            pass.new ≡ turned_away busy.word pass.old) }
    {
        let CellPassOf {
            before: _,
            pass,
            left,
            attr: _,
            after: _,
        } = pass;
        if let Err(word) = pass.attempt(&self.board, Mode::Write) {
            return Err(Busy { word });
        }
        *left -= 1;
        Ok(call_and_free(&self.board, pass, call))
    }

    /// Takes the lock, makes the call, keeps its entry and frees the lock. The gate is called before the
    /// lock is asked for, while the pass waits in the queue, while it holds the lock, and after it freed
    /// it. Where the chooser may move waiters it queues at once; else it tries before, at most 1,000 times,
    /// and sleeps in between. Takes no memory.
    pub fn apply<C: Chooser, G: Gate, Rt: Wait>(
        &self,
        rt: &Rt,
        pass: &mut CellPass<O>,
        chooser: &mut C,
        gate: &G,
        call: &O::Call,
    ) -> (O::Reply, Receipt)
        requires cell { pass.old.cell ≡ self.now.id }
        requires left { 0 < pass.old.left }
        requires admitted { O.admits pass.old.opening (O.call_numbers call.now) }
        ensures made { MakesCall O.reply_at O.state_after pass.old (record {
          worker = number pass.old;
          call = O.call_numbers call.now;
          reply = O.reply_numbers result.0;
        }) result.1.place pass.new }
        ensures finds { FindsMore pass.old.found pass.new.found }
        ensures tried { pass.new.attempts
            ≤ pass.old.attempts + attempts_before ByPolicy (C.moves_waiters chooser.old) }
        ensures asked { AsksInRounds pass.old.attr pass.old.decisions pass.new.decisions
            (C.told chooser.old) (C.told chooser.new) }
        ensures home { C.home chooser.new ≡ C.home chooser.old }
        ensures in_round { C.in_round chooser.old ≡ false → C.in_round chooser.new ≡ false }
    {
        let CellPassOf {
            before: _,
            pass,
            left,
            attr,
            after: _,
        } = pass;
        gate.at(rt, pass.number(), Point::BeforeCall);
        wait_for(rt, &self.board, pass, Mode::Write, attr, chooser, gate);
        gate.at(rt, pass.number(), Point::Holding);
        *left -= 1;
        let answer = call_and_free(&self.board, pass, call);
        gate.at(rt, pass.number(), Point::AfterCall);
        answer
    }
}
