//! A value is used in its place.
ghost use Rattle.std.specs.Prelude.{◌≡◌, ◌+◌, ℕ, true, List, ◌∷◌, ◌++◌, set, length, Some};
ghost use Rattle.atomic_table.specs.Table.{rest};
ghost use Rattle.shfl_core.specs.Plan as plan;
ghost use Rattle.shfl_line.specs.declared.events.Mode.TheVariants.{Read};
ghost use Rattle.shfl_table.specs.Places.{place_index};
ghost use Rattle.shfl_table.specs.PassModel.{HasAt, MayHave};

use crate::board::SharedBoard;
use crate::exchanges::{around, turn};
use crate::kept::Kept;
use crate::passes::Pass;
use crate::view::{LawfulBoard, Opening, View};
use atomic_table::{Seat, Shared};

/// What a pass does with a value while that stays in its place.
pub trait Visit<V> {
    type Answer;

    /// It may be done with this value.
    ghost ready: { Self → V → Type 0 };

    /// It was done with the first value, which it left as the second, and had this answer.
    ghost done: { Self → V → Self.Answer → V → Type 0 };

    fn run(self, value: &mut V) -> Self::Answer
        requires { ready self value.old }
        ensures { done self value.old result value.new };
}

// Visits the value of the place that the seat took last.
#[inline(always)]
fn visited_here<V: Kept + Drop, S: Visit<V>>(
    shared: &Shared<Option<V>, View, Opening<V>, LawfulBoard>,
    seat: &mut Seat<Option<V>, View>,
    place: usize,
    step: S,
) -> S::Answer
    requires board { seat.old.table_id ≡ shared.now.table_id }
    requires there { (x : V) × (seat.old.me.1 ≡ (place, Some x) ∷ rest seat.old.me.1)
        × S.ready step x }
    ensures same { (seat.new.table_id ≡ seat.old.table_id) × (seat.new.id ≡ seat.old.id)
        × (seat.new.me.0 ≡ seat.old.me.0) }
    ensures there { (x : V) → seat.old.me.1 ≡ (place, Some x) ∷ rest seat.old.me.1
        → (y : V) × S.done step x result y
        × (seat.new.me.1 ≡ (place, Some y) ∷ rest seat.old.me.1) }
{
    let Some(value) = seat.slot_mut(shared, place) else {
        unreachable!()
    };
    step.run(value)
}

// Visits the value of one place, behind so many others and with so many from it on.
#[inline(always)]
fn visited<V: Kept + Drop, S: Visit<V>>(
    shared: &Shared<Option<V>, View, Opening<V>, LawfulBoard>,
    seat: &mut Seat<Option<V>, View>,
    place: usize,
    around: (usize, usize),
    step: S,
) -> S::Answer
    requires board { seat.old.table_id ≡ shared.now.table_id }
    requires there { (a : List (ℕ × _)) × (b : List (ℕ × _)) × (x : V)
        × (seat.old.me.1 ≡ a ++ (place, Some x) ∷ b)
        × (length a ≡ around.0) × (length b + 1 ≡ around.1) × S.ready step x }
    ensures same { (seat.new.table_id ≡ seat.old.table_id) × (seat.new.id ≡ seat.old.id)
        × (seat.new.me.0 ≡ seat.old.me.0) }
    ensures there { (a : List (ℕ × _)) → (b : List (ℕ × _)) → (x : V)
        → seat.old.me.1 ≡ a ++ (place, Some x) ∷ b → length a ≡ around.0 → length b + 1 ≡ around.1
        → (y : V) × S.done step x result y × (seat.new.me.1 ≡ a ++ (place, Some y) ∷ b) }
{
    turn(seat, around.0);
    let answer = visited_here(shared, seat, place, step);
    turn(seat, around.1);
    answer
}

impl<V: Kept + Drop> Pass<V> {
    /// Uses the value of a place where it stands. A writer may use any, and add actions of its own pass to its history; a reader its
    /// own pass's alone, whose history it leaves. It waits for nobody.
    #[inline(always)]
    pub fn visit<S: Visit<V>>(&mut self, board: &SharedBoard<V>, place: u32, step: S) -> S::Answer
        requires board { self.old.board ≡ board.now.id }
        requires held { plan.is_held self.old.own.phase ≡ true }
        requires own { self.old.own.reg.mode ≡ Read → place ≡ self.old.own.reg.me }
        requires ready { (x : V) × HasAt self.old place x × S.ready step x }

        // What the step leaves may stand in the place.
        requires leaves { (x : V) → (answer : _) → (y : V)
            → HasAt self.old place x → S.done step x answer y
            → MayHave V.initial_state V.history self.old y }
        ensures done { (x : V) → HasAt self.old place x
            → (y : V) × S.done step x result y × (self.new ≡ record self.old {
              values = set self.old.values (place_index self.old.own.reg.mode place) (Some y);
            }) }
    {
        let own = self.own;
        let table = &board.table;
        let around = around(own.reg.mode, table.slot_count(), place as usize);
        visited(&table.shared, &mut self.seat, place as usize, around, step)
    }
}
