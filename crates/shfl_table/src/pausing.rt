//! What comes between two steps of a pass that waits: the pauses, and the gate that is told of them.
use crate::board::SharedBoard;
use crate::kept::Kept;
use crate::outcomes::Outcome;
use crate::passes::Pass;
use crate::sleepers::stand_of;
use shfl_core::Phase;
use std::sync::Wait;
use syn_outer::{Gate, Point};
use waiter_sleep::{Pause, Pauses};

// What a step with this outcome is followed by.
fn pause_of<V: Kept + Drop>(
    board: &SharedBoard<V>,
    pass: &Pass<V>,
    pauses: &mut Pauses,
    outcome: Outcome,
) -> Pause {
    let stand = stand_of(pass.phase());
    match outcome {
        Outcome::Resting => Pause::Look,
        Outcome::Advanced => {
            pauses.advance();
            if matches!(pass.phase(), Phase::Mark) {
                pauses.moved();
            }
            Pause::Look
        }
        Outcome::InVain | Outcome::InVainOpen => {
            pauses.after_look(&board.waiter(pass.number()), stand)
        }
        Outcome::GroupedNobody => pauses.after_round(&board.waiter(pass.number()), stand),
    }
}

/// What comes between a step and the next one. Only a step that looked in vain is followed by a pause, and a round that moved nobody.
/// The gate is told before the waiter yields or sleeps.
pub(crate) fn pause_after<V: Kept + Drop, G: Gate, Rt: Wait>(
    rt: &Rt,
    board: &SharedBoard<V>,
    pass: &Pass<V>,
    pauses: &mut Pauses,
    outcome: Outcome,
    gate: &G,
) {
    let pause = pause_of(board, pass, pauses, outcome);
    if pause.gives_way() {
        gate.at(rt, pass.number(), Point::GivesWay);
    }
    pauses.take(rt, &board.waiter(pass.number()), pause);
}
