//! The next call, taken and made.
ghost use Rattle.std.specs.Prelude.{◌≡◌, true, false, None, IfSome};
ghost use Rattle.shfl_cell.specs.Cells.{number};
ghost use Rattle.shfl_table.specs.Waits.{AsksInRounds};
ghost use Rattle.call_pool.specs.Pools.{IsPassOf, TakesCall, EndsAt};

use crate::pool::{PoolOf, PoolPass, PoolPassOf};
use hist_log::{Numbered, Object, Receipt};
use shfl_line::Chooser;
use shfl_table::Book;
use std::sync::Wait;
use syn_outer::Gate;

impl<O: Object + Drop> PoolOf<O::Call, Book<Numbered<O>>> {
    /// Takes the next call and makes it through the lock: its place in the list of calls, its reply, and its receipt. `None`
    /// comes only where no call is left in the queue, and from then on at once. The gate is called as by the cell. Takes no
    /// memory.
    pub fn take<Ch: Chooser, G: Gate, Rt: Wait>(
        &self,
        rt: &Rt,
        pass: &mut PoolPass<O>,
        chooser: &mut Ch,
        gate: &G,
    ) -> Option<(u32, O::Reply, Receipt)>
        requires { IsPassOf O.call_numbers O.admits self.now pass.old }
        ensures pool { IsPassOf O.call_numbers O.admits self.now pass.new }
        ensures number { number pass.new.cell ≡ number pass.old.cell }
        ensures some { IfSome result (λ r. TakesCall O.call_numbers O.reply_at O.state_after
            self.now.queue.calls pass.old r.0 (O.reply_numbers r.1) r.2.place pass.new) }

        // An end was found, behind which no call stands; or this pass had found one before.
        ensures none { result ≡ None → EndsAt pass.old pass.new }
        ensures asked { AsksInRounds pass.old.cell.attr pass.old.cell.decisions
            pass.new.cell.decisions (Ch.told chooser.old) (Ch.told chooser.new) }
        ensures home { Ch.home chooser.new ≡ Ch.home chooser.old }
        ensures in_round { Ch.in_round chooser.old ≡ false → Ch.in_round chooser.new ≡ false }
    {
        let PoolPassOf {
            taker,
            cell,
            room: _,
        } = pass;
        let Some(call) = self.queue.take(rt, taker) else {
            return None;
        };
        let (reply, receipt) = self.cell.apply(rt, cell, chooser, gate, &call);
        Some((call.at, reply, receipt))
    }

    /// Takes calls and makes them until none is left. Takes no memory.
    pub fn take_all<Ch: Chooser, G: Gate, Rt: Wait>(
        &self,
        rt: &Rt,
        pass: &mut PoolPass<O>,
        chooser: &mut Ch,
        gate: &G,
    )
        requires { IsPassOf O.call_numbers O.admits self.now pass.old }
        ensures pool { IsPassOf O.call_numbers O.admits self.now pass.new }
        ensures number { number pass.new.cell ≡ number pass.old.cell }
        ensures ended { pass.new.taker.ended ≡ true }
        ensures asked { AsksInRounds pass.old.cell.attr pass.old.cell.decisions
            pass.new.cell.decisions (Ch.told chooser.old) (Ch.told chooser.new) }
        ensures home { Ch.home chooser.new ≡ Ch.home chooser.old }
    {
        for _ in rt.forever() {
            let None = self.take(rt, pass, chooser, gate) else {
                continue;
            };
            return;
        }
        unreachable!()
    }
}
