//! What comes between two steps of a seat that waits.
use crate::arena::Arena;
use crate::outcomes::Outcome;
use crate::seats::ArenaSeat;
use crate::sleeping::stand_of;
use shfl_core::Phase;
use std::sync::Wait;
use waiter_sleep::{Pause, Pauses};

// What a step with this outcome is followed by.
fn pause_of<V: Drop>(
    arena: &Arena<V>,
    seat: &ArenaSeat<V>,
    pauses: &mut Pauses,
    outcome: Outcome,
) -> Pause {
    let stand = stand_of(seat.phase());
    match outcome {
        Outcome::Advanced => {
            pauses.advance();
            if matches!(seat.phase(), Phase::Mark) {
                pauses.moved();
            }
            Pause::Look
        }
        Outcome::InVain | Outcome::InVainOpen => pauses.after_look(&arena.waiter(seat), stand),
        Outcome::GroupedNobody => pauses.after_round(&arena.waiter(seat), stand),
    }
}

/// What comes between a step and the next one. Only a step that looked in vain is followed by a pause, and a round that moved nobody.
pub(crate) fn pause_after<V: Drop, Rt: Wait>(
    rt: &Rt,
    arena: &Arena<V>,
    seat: &ArenaSeat<V>,
    pauses: &mut Pauses,
    outcome: Outcome,
) {
    let pause = pause_of(arena, seat, pauses, outcome);
    pauses.take(rt, &arena.waiter(seat), pause);
}
