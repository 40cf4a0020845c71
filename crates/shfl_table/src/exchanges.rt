//! Values are taken out of their places and put back.
ghost use Rattle.std.specs.Prelude.{◌≡◌, ◌+◌, ◌<◌, ℕ, true, List, ◌∷◌, ◌++◌, set, slice_get, length, Some, None};
ghost use Rattle.shfl_core.specs.Plan as plan;
ghost use Rattle.shfl_line.specs.declared.events.Mode.TheVariants.{Write, Read};
ghost use Rattle.shfl_table.specs.Places.{place_index, turns};
ghost use Rattle.shfl_table.specs.PassModel.{GrowsUnder};

use crate::board::SharedBoard;
use crate::kept::Kept;
use crate::passes::Pass;
use crate::view::{LawfulBoard, Opening, View};
use atomic_table::{Seat, Shared};
use shfl_line::Mode;

// Turns the places of the seat so often.
pub(crate) fn turn<V: Kept + Drop>(seat: &mut Seat<Option<V>, View>, times: usize)
    ensures { (seat.new.table_id ≡ seat.old.table_id) × (seat.new.id ≡ seat.old.id)
        × (seat.new.me ≡ (seat.old.me.0, turns times seat.old.me.1)) }
{
    for k in 0..times {
        let _ = k;
        seat.turn();
    }
}

// Puts `new` into one place, behind so many others and with so many from it on.
fn exchanged<V: Kept + Drop>(
    shared: &Shared<Option<V>, View, Opening<V>, LawfulBoard>,
    seat: &mut Seat<Option<V>, View>,
    place: usize,
    around: (usize, usize),
    new: Option<V>,
) -> Option<V>
    requires board { seat.old.table_id ≡ shared.now.table_id }
    requires there { (a : List (ℕ × _)) × (b : List (ℕ × _)) × (y : _)
        × (seat.old.me.1 ≡ a ++ (place, y) ∷ b)
        × (length a ≡ around.0) × (length b + 1 ≡ around.1) }
    ensures same { (seat.new.table_id ≡ seat.old.table_id) × (seat.new.id ≡ seat.old.id)
        × (seat.new.me.0 ≡ seat.old.me.0) }
    ensures there { (a : List (ℕ × _)) → (b : List (ℕ × _)) → (y : _)
        → seat.old.me.1 ≡ a ++ (place, y) ∷ b → length a ≡ around.0 → length b + 1 ≡ around.1
        → (seat.new.me.1 ≡ a ++ (place, new) ∷ b) × (result ≡ y) }
{
    turn(seat, around.0);
    let old = shared.exchange(seat, place, new);
    turn(seat, around.1);
    old
}

// How many places the pass has before this one, and how many from it on.
pub(crate) fn around(mode: Mode, places: usize, place: usize) -> (usize, usize)
    requires { mode ≡ Write → place < places }
    ensures { (result.0 ≡ place_index mode place) × (mode ≡ Write → result.0 + result.1 ≡ places)
        × (mode ≡ Read → result.0 + result.1 ≡ 1) }
{
    match mode {
        Mode::Write => (place, places - place),
        Mode::Read => (0, 1),
    }
}

impl<V: Kept + Drop> Pass<V> {
    /// Takes the value of a place out. A writer may take any, a reader its own pass's. It waits for nobody.
    pub fn take_value(&mut self, board: &SharedBoard<V>, place: u32) -> V
        requires board { self.old.board ≡ board.now.id }
        requires held { plan.is_held self.old.own.phase ≡ true }
        requires own { self.old.own.reg.mode ≡ Read → place ≡ self.old.own.reg.me }
        requires within { (x : V)
            × (slice_get self.old.values (place_index self.old.own.reg.mode place)
            ≡ Some (Some x)) }
        ensures out { self.new ≡ record self.old {
          values = set self.old.values (place_index self.old.own.reg.mode place) None;
        } }
        ensures value { slice_get self.old.values (place_index self.old.own.reg.mode place)
            ≡ Some (Some result) }
        ensures goes_on { (V.initial_state result ≡ self.old.initial_state)
            × GrowsUnder (Some self.old.own.reg.mode) self.old.own.reg.me self.old.history
            (V.history result) }
    {
        let own = self.own;
        let table = &board.table;
        let around = around(own.reg.mode, table.slot_count(), place as usize);
        let Some(value) = exchanged(&table.shared, &mut self.seat, place as usize, around, None)
        else {
            unreachable!()
        };
        value
    }

    /// Puts a value into a place that is empty, with the initial state of all. A writer may have added actions of its own pass to
    /// its history, a reader none.
    pub fn put_value(&mut self, board: &SharedBoard<V>, place: u32, value: V)
        requires board { self.old.board ≡ board.now.id }
        requires held { plan.is_held self.old.own.phase ≡ true }
        requires own { self.old.own.reg.mode ≡ Read → place ≡ self.old.own.reg.me }
        requires out { slice_get self.old.values (place_index self.old.own.reg.mode place)
            ≡ Some None }
        requires initial_state { V.initial_state value ≡ self.old.initial_state }
        requires goes_on { GrowsUnder (Some self.old.own.reg.mode) self.old.own.reg.me
            self.old.history (V.history value) }
        ensures { self.new ≡ record self.old {
          values = set self.old.values (place_index self.old.own.reg.mode place) (Some value);
        } }
    {
        let own = self.own;
        let table = &board.table;
        let around = around(own.reg.mode, table.slot_count(), place as usize);
        let _ = exchanged(
            &table.shared,
            &mut self.seat,
            place as usize,
            around,
            Some(value),
        );
    }
}
