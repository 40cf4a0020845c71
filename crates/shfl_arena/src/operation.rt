//! The atomic operations of a seat at a lock.
ghost use Rattle.std.specs.Prelude.{◌≡◌, ◌+◌, ◌*◌, ◌<◌, ℕ, None};
ghost use Rattle.shfl_arena.specs.ArenaWords as words;
ghost use Rattle.shfl_arena.specs.Operations.{LockTerms, Operates};
ghost use Rattle.shfl_arena.specs.SeatViews.{step_decisions};
ghost use Rattle.shfl_arena.specs.Threads.{MayStepAt, pass_at};
ghost use Rattle.shfl_arena.specs.ValueMoves.{MayGive, writes};
ghost use Rattle.shfl_core.specs.Plan.{plan};
ghost use Rattle.shfl_core.specs.Take.{take};
ghost use Rattle.shfl_core.specs.Words.{site};
ghost use Rattle.shfl_laws.specs.Seen.{SeenAs};
ghost use Rattle.shfl_laws.specs.Stealing.{disable_plan};

use crate::performing::perform;
use crate::plays::{StepPlay, StepTerms, StillPlay};
use crate::shape::Shape;
use crate::view::{LawfulArena, Opening, SeatView};
use atomic_table::{Seat, Shared};
use shfl_core::plans::plan_row;
use shfl_core::words::{Access, Word};
use shfl_core::{PassState, Rules};
use shfl_line::CLOSED;

/// The step that a pass has planned at a lock. `choice` serves the proof alone.
#[inline(always)]
pub fn operate<V, M: StepTerms>(
    shared: &Shared<Option<V>, SeatView, Opening, LawfulArena>,
    seat: &mut Seat<Option<V>, SeatView>,
    shape: Shape,
    rules: Rules,
    lock: u32,
    own: PassState,
    choice: bool,
) -> u64
    requires made { (M.terms ≡ record {
      shape = shape;
      rules = rules;
      threads = shared.now.key.threads;
      lock = lock;
    }) × (M.own ≡ own) × (M.choice ≡ choice) }
    requires table { (seat.old.table_id ≡ shared.now.table_id) × (shared.now.key.rules ≡ rules)
        × (shared.now.key.shape ≡ shape) }
    requires lock { lock < shape.locks }
    requires place { words.place shape lock (site (plan rules own.reg.me own))
        < shared.now.table_id.words }
    requires one { seat.old.me.0.seats ≡ 1 }
    requires seat { (seat.old.me.0.number ≡ own.reg.me)
        × SeenAs rules.form own (pass_at lock own.reg.me seat.old.me.0.thread)
        × MayStepAt lock seat.old.me.0.thread }
    requires ready { (n : ℕ) → MayGive seat.old.table_id.slots lock (writes own)
        (writes (take rules own.reg.me own n choice)) seat.old.me.1 }
    ensures seat { (seat.new.table_id ≡ seat.old.table_id) × (seat.new.id ≡ seat.old.id) }
    ensures play { Operates (record {
      shape = shape;
      rules = rules;
      threads = shared.now.key.threads;
      lock = lock;
    }) own.reg.me (plan rules own.reg.me own) own
        (take rules own.reg.me own result choice) (step_decisions rules own choice)
        seat.old.table_id.slots seat.old.me result seat.new.me }
{
    let access = plan_row(rules, own.reg.me, own);
    perform::<Option<V>, SeatView, Opening, LawfulArena, StepPlay<M>>(
        shared, seat, shape, lock, access,
    )
}

/// Disables stealing at a lock, beside the rows.
#[inline(always)]
pub fn disable_once<V>(
    shared: &Shared<Option<V>, SeatView, Opening, LawfulArena>,
    seat: &mut Seat<Option<V>, SeatView>,
    shape: Shape,
    lock: u32,
)
    requires table { (seat.old.table_id ≡ shared.now.table_id)
        × (shared.now.key.shape ≡ shape) }
    requires lock { lock < shape.locks }
    requires place { words.first_node shape < shared.now.table_id.words }
    ensures { (seat.new.table_id ≡ seat.old.table_id) × (seat.new.id ≡ seat.old.id)
        × (seat.new.me ≡ seat.old.me) }
{
    let access = Access::Or {
        w: Word::Lock,
        v: CLOSED,
    };
    let _ = perform::<Option<V>, SeatView, Opening, LawfulArena, StillPlay>(
        shared, seat, shape, lock, access,
    );
}

/// Gives a thread that has no step to make another attribute word.
#[inline(always)]
pub fn store_attribute<V>(
    shared: &Shared<Option<V>, SeatView, Opening, LawfulArena>,
    seat: &mut Seat<Option<V>, SeatView>,
    shape: Shape,
    number: u32,
    word: u64,
)
    requires table { (seat.old.table_id ≡ shared.now.table_id)
        × (shared.now.key.shape ≡ shape) }
    requires some { 0 < shape.locks }
    requires one { seat.old.me.0.seats ≡ 1 }
    requires number { seat.old.me.0.number ≡ number }
    requires small { number < shared.now.key.threads }
    requires rests { seat.old.me.0.thread.at ≡ None }
    requires place { words.first_node shape + 10 * number + 2 < shared.now.table_id.words }
    ensures { (seat.new.table_id ≡ seat.old.table_id) × (seat.new.id ≡ seat.old.id)
        × (seat.new.me ≡ seat.old.me) }
{
    let access = Access::Store {
        w: Word::Attr(number),
        v: word,
    };
    let _ = perform::<Option<V>, SeatView, Opening, LawfulArena, StillPlay>(
        shared, seat, shape, 0, access,
    );
}
