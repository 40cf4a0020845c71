//! The closing of an arena: it takes all its seats back, and hands its values out.
ghost use Rattle.std.specs.Prelude.{◌≡◌, ℕ, ◌<◌, ◌≤◌, [], All, false, length, map, vec_capacity, vec_len, Some};
ghost use Rattle.std.specs.Mem.Slots.{slots_items, slots_len, IsFull};
ghost use mathlib.Core.Option.{some};
ghost use lib.ListN.{get_elem?};
ghost use Rattle.shfl_arena.specs.SeatModels.{IsNewAt, StandsFor};
ghost use Rattle.shfl_core.specs.Plan as plan;

use crate::arena::Arena;
use crate::seats::ArenaSeat;
use crate::view::{ReturnSeat, SeatView};
use atomic_table::{Closed, Seat};
use std::alloc::Global;

// The seat at the table, of a seat that has no step to make and holds nothing.
fn table_seat<V>(seat: ArenaSeat<V>) -> Seat<Option<V>, SeatView>
    requires rests { plan.moving seat.own ≡ false }
    requires nothing { (seat.holds ≡ []) × (seat.values ≡ []) }
    ensures table { result.table_id ≡ seat.arena.table }
    ensures stands { StandsFor 1 result.me }
{
    let ArenaSeat {
        own: _,
        lock: _,
        rules: _,
        shape: _,
        stride: _,
        seat,
    } = seat;
    seat
}

// One seat for all these.
fn gathered<V: Drop>(arena: &Arena<V>, mut seats: Vec<ArenaSeat<V>>) -> Seat<Option<V>, SeatView>
    requires some { 0 < vec_len seats }
    requires seats { All (IsNewAt arena.now.id) seats.items }
    ensures table { result.table_id ≡ arena.now.id.table }
    ensures stands { StandsFor (vec_len seats) result.me }
{
    let Some(first) = seats.pop() else {
        unreachable!()
    };
    let mut desk = table_seat(first);
    let shared = &arena.table.shared;
    while let Some(seat) = seats.pop() {
        let other = table_seat(seat);
        shared.join_seat::<ReturnSeat>(&mut desk, other);
    }
    desk
}

// The values of all places.
fn drained<V: Drop>(
    mut closed: Closed<Option<V>, Global>,
    places: usize,
    mut room: Vec<V>,
) -> Vec<V>
    requires full { IsFull closed.slots × IsFull closed.words × (slots_len closed.slots ≡ places)
        × (length (slots_items closed.slots) ≡ places) }
    requires all { (k : ℕ) → k < places
        → (x : V) × (get_elem? (slots_items closed.slots) k ≡ some (Some x)) }
    requires room { (room.items ≡ []) × (places ≤ vec_capacity room) }
    ensures { map Some result.items ≡ slots_items closed.slots }
{
    for k in 0..places {
        let Some(value) = closed.take(k) else {
            unreachable!()
        };
        room.push_reserved(value);
    }
    closed.free();
    room
}

impl<V: Drop> Arena<V> {
    /// The values in the order of their locks, in `room`, for all seats of the arena: as many as it has threads, none of which has a step to
    /// make or holds a lock. It waits for nobody, and takes no memory.
    pub fn close(self, seats: Vec<ArenaSeat<V>>, room: Vec<V>) -> Vec<V>
        requires seats { All (IsNewAt self.id) seats.items }
        requires all { vec_len seats ≡ self.threads }
        requires room { (room.items ≡ []) × (self.id.table.slots ≤ vec_capacity room) }
        ensures { vec_len result ≡ self.id.table.slots }
    {
        let desk = gathered(&self, seats);
        let Arena {
            table,
            sleepers: _,
            fronts: _,
        } = self;
        let places = table.slot_count();
        drained(table.close_with(desk), places, room)
    }
}
