//! The atomic operations of a pass on its board.
ghost use Rattle.std.specs.Prelude.{◌≡◌, ◌<◌, true, Some};
ghost use Rattle.shfl_line.specs.declared.events.Mode.{Mode};
ghost use Rattle.shfl_core.specs.declared.phase.Phase.TheVariants.{Idle};
ghost use Rattle.shfl_core.specs.Plan.{moving, plan, attempt_plan};
ghost use Rattle.shfl_core.specs.Words.{index, site};
ghost use Rattle.shfl_core.specs.Take.{take, attempted};
ghost use Rattle.shfl_core.specs.Waiting.{MayUse};
ghost use Rattle.shfl_laws.specs.Seen.{SeenAs};
ghost use Rattle.shfl_laws.specs.Holds.{hold_of, is_releasing};
ghost use Rattle.shfl_table.specs.ValueMoves.{FitsWords, MovesValues, MayFree};
ghost use Rattle.shfl_table.specs.Views.{attempt_deeds, step_deeds, number};
ghost use Rattle.shfl_laws.specs.Moves.{told_terms};

use crate::kept::Kept;
use crate::performing::perform;
use crate::plays::{AttemptPlay, AttemptTerms, StepPlay, StepTerms};
use crate::view::{LawfulBoard, Opening, View};
use atomic_table::{Seat, Shared};
use shfl_core::asks::attempt_access;
use shfl_core::plans::plan_row;
use shfl_core::{PassState, Rules};
use shfl_line::Mode;

/// The step that a pass has planned. `choice` serves the proof alone.
#[inline(always)]
pub fn operate<V: Kept, M: StepTerms>(
    shared: &Shared<Option<V>, View, Opening<V>, LawfulBoard>,
    seat: &mut Seat<Option<V>, View>,
    rules: Rules,
    own: PassState,
    choice: bool,
) -> u64
    requires made { (M.terms ≡ told_terms shared.now.key.rules shared.now.key.count
        shared.now.key.words.value.items)
        × (M.own ≡ own) × (M.choice ≡ choice) }
    requires table { (seat.old.table_id ≡ shared.now.table_id) × (shared.now.key.rules ≡ rules) }
    requires place { index (site (plan rules own.reg.me own)) < shared.now.table_id.words }
    requires seat { (seat.old.me.0.live ≡ true) × (number seat.old.me.0 ≡ own.reg.me)
        × SeenAs rules.form own seat.old.me.0.pass }
    requires moving { moving own ≡ true }
    requires ready { (x : Mode) → hold_of own ≡ Some x → is_releasing own.phase ≡ true
        → MayFree V.initial_state V.history x seat.old.table_id.slots seat.old.me }
    ensures seat { (seat.new.table_id ≡ seat.old.table_id) × (seat.new.id ≡ seat.old.id) }
    ensures goes { FitsWords V.initial_state V.history (told_terms shared.now.key.rules
        shared.now.key.count shared.now.key.words.value.items) (plan rules own.reg.me own)
        (λ n. take rules own.reg.me own n choice) seat.old.me result }
    ensures played { MovesValues V.initial_state V.history
        (λ n. take rules own.reg.me own n choice) (step_deeds rules own choice)
        seat.old.table_id.slots seat.old.me result seat.new.me }
{
    let access = plan_row(rules, own.reg.me, own);
    perform::<Option<V>, View, Opening<V>, LawfulBoard, StepPlay<M>>(shared, seat, access)
}

/// The first operation of an attempt of an idle pass.
#[inline(always)]
pub fn attempt_once<V: Kept, M: AttemptTerms>(
    shared: &Shared<Option<V>, View, Opening<V>, LawfulBoard>,
    seat: &mut Seat<Option<V>, View>,
    rules: Rules,
    mode: Mode,
) -> u64
    requires made { (M.goal ≡ told_terms shared.now.key.rules shared.now.key.count
        shared.now.key.words.value.items)
        × (M.wants ≡ mode) }
    requires table { (seat.old.table_id ≡ shared.now.table_id) × (shared.now.key.rules ≡ rules) }
    requires place { 0 < shared.now.table_id.words }
    requires seat { (seat.old.me.0.live ≡ true) × (seat.old.me.0.pass.phase ≡ Idle)
        × MayUse rules.form mode }
    ensures seat { (seat.new.table_id ≡ seat.old.table_id) × (seat.new.id ≡ seat.old.id) }
    ensures goes { FitsWords V.initial_state V.history (told_terms shared.now.key.rules
        shared.now.key.count shared.now.key.words.value.items) (attempt_plan mode)
        (attempted mode seat.old.me.0.pass.reg) seat.old.me result }
    ensures played { MovesValues V.initial_state V.history
        (attempted mode seat.old.me.0.pass.reg) attempt_deeds seat.old.table_id.slots seat.old.me result
        seat.new.me }
{
    let access = attempt_access(mode);
    perform::<Option<V>, View, Opening<V>, LawfulBoard, AttemptPlay<M>>(shared, seat, access)
}
