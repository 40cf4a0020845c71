//! Worked schedules: what the lock word says, and whether a move is made.
ghost use Rattle.std.specs.Prelude.{◌≡◌, [], ◌∷◌, IfOk, length};
ghost use Rattle.shfl_line.specs.declared.events.Form.TheVariants.{Spin};
ghost use Rattle.shfl_core.specs.Runner.{opened};

use crate::checks::{holds, same};
use shared_tests::PLAIN;
use shfl_core::asks::{attempt_access, attempt_row, idle_pass};
use shfl_core::local::Local;
use shfl_core::phase::Phase;
use shfl_core::words::{Access, Word, opening_words};
use shfl_core::world::PlainWorld;
use shfl_line::{Attr, Mode, NoMemory};
use std::alloc::Global;

fn open(alloc: Global) -> Result<PlainWorld<Local>, NoMemory>
    ensures { IfOk result
        (λ lock. lock ≡ opened (record { limit = 1024; form = Spin }) (PLAIN ∷ [])) }
{
    PlainWorld::open(alloc, &[PLAIN], 1024, Local::new)
}

#[test]
fn one_pass_takes_the_free_lock(rt: HostRuntime) {
    let mut lock = open(rt.alloc()).ok().expect(&rt, "memory");
    let begun = lock.acquire(0, Mode::Write);
    holds(&rt, begun);
    let stolen = lock.step(0, false);
    holds(&rt, stolen);
    same(&rt, &lock.word(), &1);
    let given = lock.release(0);
    holds(&rt, given);
    let freed = lock.step(0, false);
    holds(&rt, freed);
    same(&rt, &lock.word(), &0);
    let rests = lock.step(0, false);
    holds(&rt, !rests);
}

#[test]
fn an_attempt_takes_the_free_lock_or_keeps_the_word_that_it_found(rt: HostRuntime) {
    let swap = Access::CompareSwap {
        w: Word::Lock,
        old: 0,
        new: 1,
    };
    same(&rt, &attempt_access(Mode::Write), &swap);
    let idle = idle_pass(0);
    same(
        &rt,
        &attempt_row(Mode::Write, idle.reg, 0).phase,
        &Phase::Held,
    );
    let refused = attempt_row(Mode::Write, idle.reg, 257);
    same(&rt, &refused.phase, &Phase::Idle);
    same(&rt, &refused.reg.saw, &257);
    let counted = attempt_row(Mode::Read, idle.reg, 1);
    same(&rt, &counted.phase, &Phase::TryUncount);
}

#[test]
fn the_words_of_a_lock_lie_ten_apart(rt: HostRuntime) {
    let attr = Attr { socket: 7, ..PLAIN };
    let list = opening_words(rt.alloc(), &[PLAIN, attr]).expect(&rt, "memory");
    same(&rt, &list.len(), &40);
    for (place, word) in list.iter().enumerate() {
        let told = if place == 32 { 7 } else { 0 };
        same(&rt, word, &told);
    }
}
