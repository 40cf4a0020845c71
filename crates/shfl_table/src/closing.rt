//! The closing of a board: it takes its passes back, one at a time, and hands the values out.
ghost use Rattle.std.specs.Prelude.{◌≡◌, ℕ, true, false, List, ◌∷◌, ◌++◌, map, length, ◌<◌, ◌≤◌, [], vec_len, vec_capacity, Some, None};
ghost use Rattle.std.specs.Mem.Slots.{slots_items, slots_len, IsFull};
ghost use mathlib.Core.Option.{some};
ghost use lib.ListN.{get_elem?};
ghost use Rattle.shfl_core.specs.Plan as plan;
ghost use Rattle.shfl_core.specs.declared.phase.Phase.TheVariants.{Idle};
ghost use Rattle.shfl_table.specs.Histories.{HasSeen, IsCurrent, actions_by};
ghost use Rattle.shfl_table.specs.PassModel.{as_given, as_part};
ghost use Rattle.shfl_table.specs.Places.{Every};
ghost use Rattle.shfl_table.specs.ThreadRuns.{RanUntilClosed};
ghost use Rattle.shfl_table.specs.Views.{IsAmong, given_view, part_of};
ghost use Rattle.shfl_table.specs.declared.kept.Action.{Action};
ghost use Rattle.shfl_table.specs.declared.view.Given.{Given};

use crate::board::SharedBoard;
use crate::kept::Kept;
use crate::passes::Pass;
use crate::view::{ReturnPass, View};
use atomic_table::{Closed, Seat};
use std::alloc::Global;
use std::marker::Model;

// The seat of an idle pass.
fn seat_of<V: Kept + Drop>(pass: Pass<V>) -> Seat<Option<V>, View>
    requires { plan.is_idle pass.own.phase ≡ true }
    ensures { (result.table_id ≡ pass.board.table) × (result.me.0.live ≡ true)
        × (result.me.0.pass.phase ≡ Idle) × (result.me.0.back ≡ []) × (result.me.1 ≡ [])
        × (given_view result.me.0 ≡ as_given pass)
        × (result.me.0.parts ≡ []) × (part_of result.me.0 ≡ as_part pass) }
{
    let Pass {
        own: _,
        rules: _,
        seat,
    } = pass;
    seat
}

// The values of all places.
fn drained<V: Kept + Drop>(
    mut closed: Closed<Option<V>, Global>,
    places: usize,
    mut room: Vec<V>,
) -> Vec<V>
    requires full { IsFull closed.slots × IsFull closed.words × (slots_len closed.slots ≡ places)
        × (length (slots_items closed.slots) ≡ places) }
    requires all { (k : ℕ) → k < places
        → (x : V) × (get_elem? (slots_items closed.slots) k ≡ some (Some x)) }
    requires room { (room.items ≡ []) × (places ≤ vec_capacity room) }
    ensures { map Some result.items ≡ slots_items closed.slots }
{
    for k in 0..places {
        let Some(value) = closed.take(k) else {
            unreachable!()
        };
        room.push_reserved(value);
    }
    closed.free();
    room
}

/// A board that takes its passes back, one at a time. None of its calls takes memory.
pub struct Closing<V: Kept + Drop> {
    board: SharedBoard<V>,
    desk: Seat<Option<V>, View>,
}

impl<V: Kept + Drop> Model for Closing<V> {
    ghost use Rattle.std.specs.Prelude.{◌≡◌, true, [], ◌∷◌, ◌++◌};
    ghost use Rattle.shfl_core.specs.declared.phase.Phase.TheVariants.{Idle};
    ghost use Rattle.shfl_table.specs.PassModel.{ClosingModel};
    ghost use Rattle.shfl_table.specs.Views.{given_view, part_of};

    ghost Value = { ClosingModel };

    ghost view = { λ c. record {
      board = c.board;
      back = c.desk.me.0.back ++ given_view c.desk.me.0 ∷ [];
      parts = c.desk.me.0.parts ++ part_of c.desk.me.0 ∷ [];
    } };

    ghost invariant = { λ c. (c.desk.table_id ≡ c.board.id.table) × (c.desk.me.0.live ≡ true)
        × (c.desk.me.0.pass.phase ≡ Idle) };
}

impl<V: Kept + Drop> Closing<V> {
    /// Begins with one pass of the board.
    pub fn new(board: SharedBoard<V>, first: Pass<V>) -> Closing<V>
        requires board { first.board ≡ board.id }
        requires idle { plan.is_idle first.own.phase ≡ true }
        ensures { result ≡ record {
          board = board;
          back = as_given first ∷ [];
          parts = as_part first ∷ [];
        } }
    {
        let desk = seat_of(first);
        Closing { board, desk }
    }

    /// Takes one pass more.
    pub fn give(&mut self, pass: Pass<V>)
        requires board { pass.board ≡ self.old.board.id }
        requires idle { plan.is_idle pass.own.phase ≡ true }
        ensures { self.new ≡ record self.old {
          back = as_given pass ∷ self.old.back;
          parts = as_part pass ∷ self.old.parts;
        } }
    {
        let other = seat_of(pass);
        let board = &self.board;
        let table = &board.table;
        table.shared.join_seat::<ReturnPass>(&mut self.desk, other);
    }

    /// The values, once all passes are given back: with the initial state of the opening and one history, which begins with what each
    /// pass saw, has each pass's actions as that pass saw them, and no others. All that was done to the lock since its opening is one
    /// list of changes, in which each pass did what it tells and found the words that it tells, once each, and nobody else did anything; and
    /// the history is what the holds in that list have made, in the order in which they ended: each action by its worker, while that one
    /// alone held the lock.
    pub fn finish(self) -> Vec<V>
        requires all { (k : ℕ) → k < self.board.count
            → (g : Given) × IsAmong g self.back × (g.number ≡ k) }
        ensures len { vec_len result ≡ self.board.id.table.slots }
        ensures values { (total : List Action)
            × Every (IsCurrent V.initial_state V.history self.board.initial_state total)
            result.items
            × ((g : Given) → IsAmong g self.back → HasSeen total g.number g.history)
            × ((k : ℕ) → self.board.count ≤ k → actions_by k total ≡ []) }
        ensures run { (total : List Action)
            × Every (IsCurrent V.initial_state V.history self.board.initial_state total)
            result.items
            × RanUntilClosed self.board.id.rules self.board.id.attrs self.board.count
            self.parts total }
    {
        let Closing { board, desk } = self;
        let SharedBoard {
            table,
            room,
            sleepers: _,
            front: _,
        } = board;
        let places = table.slot_count();
        drained(table.close_with(desk), places, room)
    }
}
