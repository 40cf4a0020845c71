//! The tries that a pass makes before it queues.
ghost use Rattle.std.specs.Prelude.{◌≡◌, true, false};
ghost use Rattle.shfl_core.specs.Plan as plan;
ghost use Rattle.shfl_core.specs.Waiting.{MayUse};
ghost use Rattle.shfl_table.specs.Waits.{TriedInVain, WaitsFor};

use crate::board::SharedBoard;
use crate::kept::Kept;
use crate::passes::Pass;
use shfl_line::Mode;
use std::sync::Wait;
use syn_outer::{Gate, Point};
use waiter_sleep::Attempted;

// What comes after the attempt of this number in vain: whether the pass tries again. The gate is told before the processor is given away.
fn tries_again<V: Kept + Drop, G: Gate, Rt: Wait>(
    rt: &Rt,
    board: &SharedBoard<V>,
    pass: &Pass<V>,
    mode: Mode,
    tried: u32,
    gate: &G,
) -> bool {
    let waiter = board.waiter(pass.number());
    match waiter.after_attempt(tried) {
        Attempted::Again => true,
        Attempted::Queues => false,
        Attempted::GivesWay => {
            gate.at(rt, pass.number(), Point::GivesWay);
            waiter.give_way(rt, mode);
            true
        }
    }
}

/// Makes at most so many attempts to take the lock without queueing, with pauses between them: whether the pass holds it. Each attempt fails while
/// stealing is disabled, as it is while others queue.
pub(crate) fn try_first<V: Kept + Drop, G: Gate, Rt: Wait>(
    rt: &Rt,
    board: &SharedBoard<V>,
    pass: &mut Pass<V>,
    mode: Mode,
    attempts: u32,
    gate: &G,
) -> bool
    requires board { pass.old.board ≡ board.now.id }
    requires mode { MayUse pass.old.board.rules.form mode }
    requires idle { plan.is_idle pass.old.own.phase ≡ true }
    ensures waited { result ≡ true
        → WaitsFor V.initial_state V.history attempts mode pass.old pass.new }
    ensures holds { result ≡ true → plan.is_resting pass.new.own ≡ true }
    ensures lost { result ≡ false → TriedInVain attempts pass.old pass.new }
    ensures asked { pass.new.decisions ≡ pass.old.decisions }
{
    for tried in 0..attempts {
        if pass.attempt(board, mode).is_ok() {
            if tried != 0 {
                board.waiter(pass.number()).end(rt, mode);
            }
            return true;
        }
        if !tries_again(rt, board, pass, mode, tried, gate) {
            return false;
        }
    }
    false
}
