//! Reads: the pass looks at its own copy.
ghost use Rattle.std.specs.Prelude.{◌≡◌, ℕ, ◌+◌, ◌<◌, ◌≤◌, ◌∷◌, ◌++◌, ◌||◌, [], true, false, length, IfOk, OnOk, IfErr, Some};
ghost use Rattle.hist_log.specs.History.{state_left};
ghost use Rattle.shfl_line.specs.Words.{held_of, closed_of};
ghost use Rattle.shfl_line.specs.declared.events.Mode.TheVariants.{Read};
ghost use Rattle.shfl_core.specs.Plan as plan;
ghost use Rattle.shfl_table.specs.Queueing.{attempts_before};
ghost use Rattle.shfl_table.specs.Waits.{as_idle, AsksInRounds, FindsMore};
ghost use Rattle.shfl_table.specs.declared.queueing.Queueing.TheVariants.{ByPolicy};
ghost use Rattle.shfl_table.specs.Books.{pack, opening_of, operations_of};
ghost use Rattle.rw_cell.specs.CallOrder.{calls_of};
ghost use Rattle.rw_cell.specs.RwCells.{MakesRead, number, turned_away};

use crate::cell::{RwCellOf, RwPass, RwPassOf};
use hist_log::{Entry, Object, Receipt};
use shfl_line::{Chooser, Mode};
use shfl_table::{Book, Busy, LookCall, Pass, SharedBoard, free, wait_for};
use std::sync::Wait;
use syn_outer::{Gate, Point};

// The call on the pass's own copy, by a pass that holds the lock for reading; it frees the lock.
fn read_and_free<O: Object + Drop>(
    board: &SharedBoard<Book<O>>,
    pass: &mut Pass<Book<O>>,
    call: &O::Call,
) -> (O::Reply, Receipt)
    requires board { pass.old.board ≡ board.now.id }
    requires holds { plan.is_resting pass.old.own ≡ true }
    requires mode { pass.old.own.reg.mode ≡ Read }
    requires within { (x : _) × (pass.old.values ≡ Some x ∷ [])
        × (pack x.opening x.allowed ≡ pass.old.initial_state)
        × (x.history ≡ pass.old.history) }
    requires read { O.reads (O.call_numbers call.now) }
    requires admitted { O.admits (opening_of pass.old.initial_state) (O.call_numbers call.now) }
    ensures reply { O.reply_numbers result.0
        ≡ O.reply_at (state_left O.state_after (opening_of pass.old.initial_state)
        (operations_of pass.old.history)) (O.call_numbers call.now) }
    ensures place { result.1.place ≡ length pass.old.history }
    ensures pass { pass.new ≡ record pass.old {
      own = as_idle pass.old.own;
      steps_taken = pass.old.steps_taken + 1;
      found = pass.new.found;
      values = [];
    } }
    ensures finds { FindsMore pass.old.found pass.new.found }
{
    let number = pass.number();
    let (reply, place) = pass.visit(board, number, LookCall::<O> { call });
    free(board, pass);
    (reply, Receipt { place })
}

impl<O: Object + Drop> RwCellOf<Book<O>, Entry<O>, O> {
    /// Makes a read by one try at the lock, and waits for nobody. Takes no memory.
    pub fn try_read(
        &self,
        pass: &mut RwPass<O>,
        call: &O::Call,
    ) -> Result<(O::Reply, Receipt), Busy>
        requires cell { pass.old.cell ≡ self.now.id }
        requires left { 0 < pass.old.left }
        requires read { O.reads (O.call_numbers call.now) }
        requires admitted { O.admits pass.old.opening (O.call_numbers call.now) }
        ensures made { IfOk result (λ r. MakesRead O.reply_at O.state_after pass.old
            (O.call_numbers call.now) (O.reply_numbers r.0) r.1.place
            (record { worker = number pass.old; call = call.now; reply = r.0; receipt = r.1.place })
            pass.new) }
        ensures last { IfOk result (λ r. calls_of O.call_numbers O.reply_numbers pass.new
            ≡ calls_of O.call_numbers O.reply_numbers pass.old ++ record {
              worker = number pass.old;
              call = O.call_numbers call.now;
              reply = O.reply_numbers r.0;
            } ∷ []) }
        ensures mode { OnOk result (pass.new.reg.mode ≡ Read) }
        ensures steps { OnOk result (pass.new.steps_taken ≡ pass.old.steps_taken + 2) }
        ensures finds { OnOk result (FindsMore pass.old.found pass.new.found) }
        ensures asks_nobody { OnOk result (pass.new.decisions ≡ pass.old.decisions) }
        ensures tried { OnOk result (pass.new.attempts ≡ pass.old.attempts + 1) }
        ensures busy { IfErr result (λ busy.
            (held_of busy.word || closed_of busy.word) ≡ true) }

        // Its second step takes the count back, and finds this word.
        ensures turned_away { IfErr result (λ busy. (word : ℕ)
            × (pass.new ≡ turned_away Read busy.word (word ∷ []) pass.old)) }
    {
        let RwPassOf {
            before: _,
            pass,
            left,
            attr: _,
            reads,
            after: _,
        } = pass;
        if let Err(word) = pass.attempt(&self.board, Mode::Read) {
            return Err(Busy { word });
        }
        *left -= 1;
        let worker = pass.number();
        let (reply, receipt) = read_and_free(&self.board, pass, call);
        reads.push_reserved(Entry {
            worker,
            call: *call,
            reply,
            receipt: receipt.place,
        });
        Ok((reply, receipt))
    }

    /// Takes the lock beside other readers, looks at the pass's own copy and frees the lock. The gate
    /// is called before the lock is asked for, while the pass waits in the queue, while it holds the
    /// lock, and after it freed it. It tries before it queues as `write` does. Takes no memory.
    pub fn read<C: Chooser, G: Gate, Rt: Wait>(
        &self,
        rt: &Rt,
        pass: &mut RwPass<O>,
        chooser: &mut C,
        gate: &G,
        call: &O::Call,
    ) -> (O::Reply, Receipt)
        requires cell { pass.old.cell ≡ self.now.id }
        requires left { 0 < pass.old.left }
        requires read { O.reads (O.call_numbers call.now) }
        requires admitted { O.admits pass.old.opening (O.call_numbers call.now) }
        ensures made { MakesRead O.reply_at O.state_after pass.old
            (O.call_numbers call.now) (O.reply_numbers result.0) result.1.place
            (record {
              worker = number pass.old;
              call = call.now;
              reply = result.0;
              receipt = result.1.place;
            }) pass.new }
        ensures last { calls_of O.call_numbers O.reply_numbers pass.new
            ≡ calls_of O.call_numbers O.reply_numbers pass.old ++ record {
              worker = number pass.old;
              call = O.call_numbers call.now;
              reply = O.reply_numbers result.0;
            } ∷ [] }

        // The lock was held for reading.
        ensures mode { pass.new.reg.mode ≡ Read }
        ensures finds { FindsMore pass.old.found pass.new.found }
        ensures tried { pass.new.attempts
            ≤ pass.old.attempts + attempts_before ByPolicy (C.moves_waiters chooser.old) }
        ensures asked { AsksInRounds pass.old.attr pass.old.decisions pass.new.decisions
            (C.told chooser.old) (C.told chooser.new) }
        ensures home { C.home chooser.new ≡ C.home chooser.old }
        ensures in_round { C.in_round chooser.old ≡ false → C.in_round chooser.new ≡ false }
    {
        let RwPassOf {
            before: _,
            pass,
            left,
            attr,
            reads,
            after: _,
        } = pass;
        let worker = pass.number();
        gate.at(rt, worker, Point::BeforeCall);
        wait_for(rt, &self.board, pass, Mode::Read, attr, chooser, gate);
        gate.at(rt, worker, Point::Holding);
        *left -= 1;
        let (reply, receipt) = read_and_free(&self.board, pass, call);
        gate.at(rt, worker, Point::AfterCall);
        reads.push_reserved(Entry {
            worker,
            call: *call,
            reply,
            receipt: receipt.place,
        });
        (reply, receipt)
    }
}
