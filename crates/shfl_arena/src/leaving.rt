//! The one operation by which a seat gives a lock back.
ghost use Rattle.std.specs.Prelude.{◌≡◌, ◌<◌, ℕ, false, None, Some};
ghost use Rattle.shfl_arena.specs.ArenaWords as words;
ghost use Rattle.shfl_arena.specs.Operations.{LockTerms, Operates, gives_back};
ghost use Rattle.shfl_arena.specs.SeatModels.{leaving};
ghost use Rattle.shfl_arena.specs.SeatViews.{step_decisions};
ghost use Rattle.shfl_arena.specs.Threads.{mode_held};
ghost use Rattle.shfl_arena.specs.ValueMoves.{HasInFront};
ghost use Rattle.shfl_core.specs.Plan.{plan};
ghost use Rattle.shfl_core.specs.Take.{take};
ghost use Rattle.shfl_line.specs.declared.events.Mode.TheVariants.{Write};

use crate::performing::perform_at;
use crate::plays::{StepPlay, StepTerms};
use crate::shape::Shape;
use crate::view::{LawfulArena, Opening, SeatView};
use atomic_table::{Seat, Shared};
use shfl_core::Rules;
use shfl_core::words::{Access, Word};
use shfl_line::{HELD, Mode, READER};

// What the last step of a way out does. What the holder had put into the lock's word is in it still, so it's taken away: a processor does that in one
// instruction, and makes a loop of a bit that is cleared.
#[inline(always)]
fn leave_access(mode: Mode) -> Access
    ensures { result ≡ gives_back mode }
{
    let v = match mode {
        Mode::Write => HELD,
        Mode::Read => READER,
    };
    Access::Sub { w: Word::Lock, v }
}

/// The step of a seat that holds a lock at rest in this mode, and leaves, on the word at this place. `shape`, `rules` and `lock` serve
/// the proof alone.
#[inline(always)]
pub fn leave_once<V, M: StepTerms>(
    shared: &Shared<Option<V>, SeatView, Opening, LawfulArena>,
    seat: &mut Seat<Option<V>, SeatView>,
    shape: Shape,
    rules: Rules,
    lock: u32,
    at: usize,
    mode: Mode,
) -> u64
    requires made { (M.terms ≡ record {
      shape = shape;
      rules = rules;
      threads = shared.now.key.threads;
      lock = lock;
    }) × (M.own ≡ leaving seat.old.me.0.number mode) × (M.choice ≡ false) }
    requires table { (seat.old.table_id ≡ shared.now.table_id) × (shared.now.key.rules ≡ rules)
        × (shared.now.key.shape ≡ shape) }
    requires lock { lock < shape.locks }
    requires at { at ≡ words.lock_place shape.spread lock }
    requires place { at < shared.now.table_id.words }
    requires one { seat.old.me.0.seats ≡ 1 }
    requires rests { seat.old.me.0.thread.at ≡ None }
    requires holds { mode_held lock seat.old.me.0.thread.holds ≡ Some mode }
    requires value { mode ≡ Write → lock < seat.old.table_id.slots
        → HasInFront lock seat.old.me.1 }
    ensures seat { (seat.new.table_id ≡ seat.old.table_id) × (seat.new.id ≡ seat.old.id) }
    ensures play { let k = seat.old.me.0.number in let own = leaving k mode in
        Operates (record {
          shape = shape;
          rules = rules;
          threads = shared.now.key.threads;
          lock = lock;
        }) k (plan rules k own) own (take rules k own result false)
        (step_decisions rules own false) seat.old.table_id.slots seat.old.me result seat.new.me }
{
    let access = leave_access(mode);
    perform_at::<Option<V>, SeatView, Opening, LawfulArena, StepPlay<M>>(shared, seat, at, access)
}
