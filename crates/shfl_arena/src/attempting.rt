//! The first step of an attempt: its operation, or a look that spares it.
ghost use Rattle.std.specs.Prelude.{◌≡◌, ◌<◌, None, []};
ghost use Rattle.shfl_arena.specs.ArenaWords as words;
ghost use Rattle.shfl_arena.specs.Operations.{LockTerms, Operates};
ghost use Rattle.shfl_arena.specs.Threads.{mode_held};
ghost use Rattle.shfl_core.specs.Plan.{attempt_plan};
ghost use Rattle.shfl_core.specs.Take.{attempted};
ghost use Rattle.shfl_core.specs.Waiting.{MayUse, blank, idle};

use crate::performing::perform_at;
use crate::plays::{AttemptPlay, AttemptTerms, LookPlay};
use crate::shape::Shape;
use crate::view::{LawfulArena, Opening, SeatView};
use atomic_table::{Seat, Shared};
use shfl_core::Rules;
use shfl_core::asks::attempt_access;
use shfl_core::words::{Access, Word};
use shfl_line::Mode;

/// The first step of an attempt of a seat that has no step to make, on the word at this place. A writer looks at the word before its
/// operation, and one that isn't 0 refuses it there: a processor begins an operation that may change a word only when all before it is
/// over, and a load at once, so the word is on its way while what stands before is still under way, of several locks at a time; and who
/// finds the lock taken only reads its line. `shape`, `rules` and `lock` serve the proof alone.
#[inline(always)]
pub fn attempt_once<V, M: AttemptTerms>(
    shared: &Shared<Option<V>, SeatView, Opening, LawfulArena>,
    seat: &mut Seat<Option<V>, SeatView>,
    shape: Shape,
    rules: Rules,
    lock: u32,
    at: usize,
    mode: Mode,
) -> u64
    requires made { (M.goal ≡ record {
      shape = shape;
      rules = rules;
      threads = shared.now.key.threads;
      lock = lock;
    }) × (M.number ≡ seat.old.me.0.number) × (M.wants ≡ mode) }
    requires table { (seat.old.table_id ≡ shared.now.table_id) × (shared.now.key.rules ≡ rules)
        × (shared.now.key.shape ≡ shape) }
    requires lock { lock < shape.locks }
    requires at { at ≡ words.lock_place shape.spread lock }
    requires place { at < shared.now.table_id.words }
    requires one { seat.old.me.0.seats ≡ 1 }
    requires rests { seat.old.me.0.thread.at ≡ None }
    requires free { mode_held lock seat.old.me.0.thread.holds ≡ None }
    requires mode { MayUse rules.form mode }
    ensures seat { (seat.new.table_id ≡ seat.old.table_id) × (seat.new.id ≡ seat.old.id) }
    ensures play { Operates (record {
      shape = shape;
      rules = rules;
      threads = shared.now.key.threads;
      lock = lock;
    }) seat.old.me.0.number (attempt_plan mode) (idle seat.old.me.0.number)
        (attempted mode (blank seat.old.me.0.number) result) []
        seat.old.table_id.slots seat.old.me result seat.new.me }
{
    let access = attempt_access(mode);
    match mode {
        Mode::Write => {
            let look = Access::Load { w: Word::Lock };
            let word = perform_at::<Option<V>, SeatView, Opening, LawfulArena, LookPlay<M>>(
                shared, seat, at, look,
            );
            if word != 0 {
                return word;
            }
            perform_at::<Option<V>, SeatView, Opening, LawfulArena, AttemptPlay<M>>(
                shared, seat, at, access,
            )
        }
        Mode::Read => perform_at::<Option<V>, SeatView, Opening, LawfulArena, AttemptPlay<M>>(
            shared, seat, at, access,
        ),
    }
}
