//! The queue's head disables stealing again.
ghost use Rattle.std.specs.Prelude.{◌≡◌, ◌+◌, ◌<◌, ℕ, [], ◌∷◌, ◌++◌, true, false, Some, None};
ghost use Rattle.shfl_line.specs.Words.{IsLockWord};
ghost use Rattle.shfl_laws.specs.Moves.{told_terms};
ghost use Rattle.shfl_laws.specs.Stealing.{disable_plan};
ghost use Rattle.shfl_table.specs.Outcomes.{waits_at_head};
ghost use Rattle.shfl_table.specs.ValueMoves.{FitsWords, MovesValues};
ghost use Rattle.shfl_table.specs.Views.{no_deeds};

use crate::board::SharedBoard;
use crate::kept::Kept;
use crate::outcomes::waits_at_head;
use crate::passes::Pass;
use crate::performing::perform;
use crate::plays::{DisablingPlay, DisablingTerms};
use crate::view::{LawfulBoard, Opening, View};
use atomic_table::{Seat, Shared};
use shfl_core::words::{Access, Word};
use shfl_line::CLOSED;
use std::marker::Brand;

// The one operation.
#[inline(always)]
fn disable_access() -> Access
    ensures { result ≡ disable_plan }
{
    Access::Or {
        w: Word::Lock,
        v: CLOSED,
    }
}

// A seat makes it, and its pass stands as it stood.
fn disable_once<V: Kept, M: DisablingTerms>(
    shared: &Shared<Option<V>, View, Opening<V>, LawfulBoard>,
    seat: &mut Seat<Option<V>, View>,
) -> u64
    requires made { M.lock ≡ told_terms shared.now.key.rules shared.now.key.count
        shared.now.key.words.value.items }
    requires table { seat.old.table_id ≡ shared.now.table_id }
    requires place { 0 < shared.now.table_id.words }
    requires live { seat.old.me.0.live ≡ true }
    ensures seat { (seat.new.table_id ≡ seat.old.table_id) × (seat.new.id ≡ seat.old.id) }
    ensures goes { FitsWords V.initial_state V.history (told_terms shared.now.key.rules
        shared.now.key.count shared.now.key.words.value.items) disable_plan
        (λ _. seat.old.me.0.pass) seat.old.me result }
    ensures played { MovesValues V.initial_state V.history (λ _. seat.old.me.0.pass) no_deeds
        seat.old.table_id.slots seat.old.me result seat.new.me }
{
    perform::<Option<V>, View, Opening<V>, LawfulBoard, DisablingPlay<M>>(
        shared,
        seat,
        disable_access(),
    )
}

impl<V: Kept + Drop> Pass<V> {
    /// Disables stealing again, by one operation beside the steps of the pass: for the queue's head, which finds it enabled while it
    /// waits (`Outcome::InVainOpen`). Where a pass has left last as this one joined, it may enable stealing after this one has disabled
    /// it; from then on others would come past the queue as long as it stands. The pass stands as it stood, and the lock word that was
    /// found is told. None, and nothing changes, for a pass that doesn't wait at the queue's head. It waits for nobody.
    pub fn disable_stealing(&mut self, board: &SharedBoard<V>) -> Option<u64>
        requires board { self.old.board ≡ board.now.id }
        ensures refused { waits_at_head self.old.own ≡ false
            → (result ≡ None) × (self.new ≡ self.old) }
        ensures made { waits_at_head self.old.own ≡ true
            → (word : ℕ) × (result ≡ Some word) × IsLockWord word
            × (self.new ≡ record self.old {
              steps_taken = self.old.steps_taken + 1;
              found = self.old.found ++ word ∷ [];
            }) }
    {
        if !waits_at_head(self.own) {
            return None;
        }
        let table = &board.table;
        Some(disable_once::<V, Brand>(&table.shared, &mut self.seat))
    }
}
