//! One atomic operation on a word, on a table of words, whichever it is.
ghost use Rattle.shfl_arena.specs.ArenaWords as words;
ghost use Rattle.shfl_arena.specs.Operations.{step_at, step_of, Permits, PermitsAt};
ghost use Rattle.shfl_core.specs.Words.{site};
ghost use Rattle.std.specs.Prelude.{◌≡◌, ◌<◌};

use crate::shape::{Shape, place};
use atomic_table::{Play, Seat, Shared, TableRule};
use shfl_core::words::Access;

/// Makes the operation on the word at this place, and tells what it found, or, of a store, what it stored.
#[inline(always)]
pub fn perform_at<S, V, K, P: TableRule<S, V, K>, M: Play<S, V>>(
    shared: &Shared<S, V, K, P>,
    seat: &mut Seat<S, V>,
    at: usize,
    access: Access,
) -> u64
    requires table { seat.old.table_id ≡ shared.now.table_id }
    requires place { at < shared.now.table_id.words }
    requires permits { PermitsAt (P.holds shared.now.key) shared.now.table_id.slots seat.old.id
        seat.old.me M.then at access }
    ensures seat { (seat.new.table_id ≡ seat.old.table_id) × (seat.new.id ≡ seat.old.id) }
    ensures play { M.then (step_at shared.now.table_id.slots at access)
        seat.old.me result seat.new.me }
{
    match access {
        Access::Load { w: _ } => shared.load::<M>(seat, at),
        Access::Store { w: _, v } => {
            shared.store::<M>(seat, at, v);
            v
        }
        Access::Swap { w: _, v } => shared.swap::<M>(seat, at, v),
        Access::CompareSwap { w: _, old, new } => {
            shared.compare_exchange::<M>(seat, at, old, new)
        }
        Access::Or { w: _, v } => shared.fetch_or::<M>(seat, at, v),
        Access::And { w: _, v } => shared.fetch_and::<M>(seat, at, v),
        Access::Xor { w: _, v } => shared.fetch_xor::<M>(seat, at, v),
        Access::Add { w: _, v } => shared.fetch_add::<M>(seat, at, v),
        Access::Sub { w: _, v } => shared.fetch_sub::<M>(seat, at, v),
    }
}

/// The same at the place of its word of a lock. Each arm finds the place by itself: so one jump leads a step to its operation.
#[inline(always)]
pub fn perform<S, V, K, P: TableRule<S, V, K>, M: Play<S, V>>(
    shared: &Shared<S, V, K, P>,
    seat: &mut Seat<S, V>,
    shape: Shape,
    lock: u32,
    access: Access,
) -> u64
    requires table { seat.old.table_id ≡ shared.now.table_id }
    requires place { words.place shape lock (site access) < shared.now.table_id.words }
    requires permits { Permits (P.holds shared.now.key) shared.now.table_id.slots seat.old.id
        seat.old.me M.then shape lock access }
    ensures seat { (seat.new.table_id ≡ seat.old.table_id) × (seat.new.id ≡ seat.old.id) }
    ensures play { M.then (step_of shared.now.table_id.slots shape lock access)
        seat.old.me result seat.new.me }
{
    match access {
        Access::Load { w } => shared.load::<M>(seat, place(shape, lock, w)),
        Access::Store { w, v } => {
            shared.store::<M>(seat, place(shape, lock, w), v);
            v
        }
        Access::Swap { w, v } => shared.swap::<M>(seat, place(shape, lock, w), v),
        Access::CompareSwap { w, old, new } => {
            shared.compare_exchange::<M>(seat, place(shape, lock, w), old, new)
        }
        Access::Or { w, v } => shared.fetch_or::<M>(seat, place(shape, lock, w), v),
        Access::And { w, v } => shared.fetch_and::<M>(seat, place(shape, lock, w), v),
        Access::Xor { w, v } => shared.fetch_xor::<M>(seat, place(shape, lock, w), v),
        Access::Add { w, v } => shared.fetch_add::<M>(seat, place(shape, lock, w), v),
        Access::Sub { w, v } => shared.fetch_sub::<M>(seat, place(shape, lock, w), v),
    }
}
