//! The two things that the seat does: the operation of a pass, and a look at a word.
ghost use Rattle.std.specs.Prelude.{◌≡◌, ◌<◌};
ghost use Rattle.shfl_core.specs.Plan.{plan};
ghost use Rattle.shfl_core.specs.Words as words;
ghost use Rattle.shfl_core.specs.Words.{look};
ghost use Rattle.shfl_solo.specs.Rule.{Steps, IsSeen};

use crate::rule::{Opening, Reading, Row, StaysLawful, Stepping, Whole};
use atomic_table::{Seat, Shared};
use shfl_core::words::index;
use shfl_core::{Access, PassState, Rules, Word};
use shfl_table::perform;

/// Makes the operation that the pass has planned, and tells what it found, or, of a store, what it stored. The rules, the pass,
/// where it stands and the choice serve the proof alone.
#[inline(always)]
pub fn operate<M: Stepping>(
    shared: &Shared<(), Whole, Opening, StaysLawful>,
    seat: &mut Seat<(), Whole>,
    access: Access,
    rules: Rules,
    pass: u32,
    own: PassState,
    choice: bool,
) -> u64
    requires stepping { (M.rules ≡ rules) × (M.pass ≡ pass) × (M.own ≡ own) × (M.choice ≡ choice) }
    requires planned { access ≡ plan rules pass own }
    requires table { (seat.old.table_id ≡ shared.now.table_id) × (shared.now.key.rules ≡ rules) }
    requires place { words.index (words.site access) < shared.now.table_id.words }
    requires seat { (seat.old.id ≡ 0) × IsSeen rules.form pass own seat.old.me.0.passes }
    ensures table { (seat.new.table_id ≡ seat.old.table_id) × (seat.new.id ≡ seat.old.id) }
    ensures bare { seat.new.me.1 ≡ seat.old.me.1 }
    ensures row { Steps rules pass own choice seat.old.me.0 result seat.new.me.0 }
{
    perform::<(), Whole, Opening, StaysLawful, Row<M>>(shared, seat, access)
}

/// What the word says.
#[inline(always)]
pub fn read(
    shared: &Shared<(), Whole, Opening, StaysLawful>,
    seat: &mut Seat<(), Whole>,
    word: Word,
) -> u64
    requires table { (seat.old.table_id ≡ shared.now.table_id) × (seat.old.id ≡ 0) }
    requires place { words.index word < shared.now.table_id.words }
    ensures table { (seat.new.table_id ≡ seat.old.table_id) × (seat.new.id ≡ seat.old.id) }
    ensures unchanged { seat.new.me ≡ seat.old.me }
    ensures word { result ≡ look seat.old.me.0.words word }
{
    shared.load::<Reading>(seat, index(word))
}
