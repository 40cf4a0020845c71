//! A lock that makes its passes' moves one at a time, whatever its words lie in.
ghost use Rattle.std.specs.Prelude.{◌≡◌, ◌<◌, length};
ghost use Rattle.shfl_core.specs.declared.words.Word.TheVariants.{Lock as LockWord};
ghost use Rattle.shfl_core.specs.Runner as runner;
ghost use Rattle.shfl_core.specs.Runner.{Lock};
ghost use Rattle.shfl_core.specs.ShownLine.{shown_line};
ghost use Rattle.shfl_core.specs.Waiting as waiting;
ghost use Rattle.shfl_core.specs.Waiting.{MayUse};
ghost use Rattle.shfl_core.specs.Words.{look};
ghost use Rattle.shfl_core.specs.Worlds.{Acquire, Release, Step, admitted, known};

use crate::phase::Ask;
use shfl_line::{LineState, Mode};

/// The moves of a schedule, and what the lock shows between them. No call takes memory, and none waits.
pub trait Board {
    /// Its words, its passes and their rules.
    ghost meaning: { Self → Lock };

    /// The pass begins to take the lock; refused unless it is idle.
    fn acquire(&mut self, pass: u32, mode: Mode) -> bool
        requires declared { pass < length (meaning self.old).world.passes }
        requires mode { MayUse (meaning self.old).rules.form mode }
        ensures answer { result ≡ admitted (meaning self.old).world (Acquire pass mode) }
        ensures after { meaning self.new ≡ runner.moved (meaning self.old) (Acquire pass mode) };

    /// The pass begins to give the lock back; refused unless it holds the lock and owes no step.
    fn release(&mut self, pass: u32) -> bool
        requires declared { pass < length (meaning self.old).world.passes }
        ensures answer { result ≡ admitted (meaning self.old).world (Release pass) }
        ensures after { meaning self.new ≡ runner.moved (meaning self.old) (Release pass) };

    /// What the pass asks the policy at its next step.
    fn ask(&self, pass: u32) -> Ask
        requires declared { pass < length (meaning self.now).world.passes }
        ensures { result
            ≡ waiting.ask (meaning self.now).rules (known (meaning self.now).world.passes pass) };

    /// The pass makes its next step; refused where it has none. The choice counts only where the pass asks.
    fn step(&mut self, pass: u32, choice: bool) -> bool
        requires declared { pass < length (meaning self.old).world.passes }
        ensures answer { result ≡ admitted (meaning self.old).world (Step pass choice) }
        ensures after { meaning self.new ≡ runner.moved (meaning self.old) (Step pass choice) };

    /// Whether the pass is parked and waits to be woken.
    fn asleep(&self, pass: u32) -> bool
        requires declared { pass < length (meaning self.now).world.passes }
        ensures { result ≡ runner.is_parked (known (meaning self.now).world.passes pass).nap };

    /// Fills a state that was opened for as many passes with what the lock shows.
    fn show(&mut self, out: &mut LineState)
        requires room { length out.old.mark ≡ length (meaning self.old).world.passes }
        ensures shown { out.new ≡ shown_line (meaning self.old).world }
        ensures unchanged { meaning self.new ≡ meaning self.old };

    /// The lock word.
    fn word(&mut self) -> u64
        ensures word { result ≡ look (meaning self.old).world.words LockWord }
        ensures unchanged { meaning self.new ≡ meaning self.old };
}
