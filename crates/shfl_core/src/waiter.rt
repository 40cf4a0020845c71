//! A waiter: it says what it does next, and learns what was found.
ghost use Rattle.std.specs.Prelude.{◌≡◌, false};
ghost use Rattle.shfl_core.specs.Plan as plan;
ghost use Rattle.shfl_core.specs.Waiting as waiting;
ghost use Rattle.shfl_core.specs.Waiting.{Meaning, MayUse};
ghost use Rattle.shfl_core.specs.Words.{is_store, site, NamesPass};

use crate::phase::{Ask, Nap, Phase, Registers, Watch};
use crate::words::Access;
use shfl_line::Mode;

/// A pass of a lock. Its steps are made by whoever has the words: `plan`, the operation, `take`.
pub trait Waiter {
    /// Its number, attributes and rules, and where it stands.
    ghost meaning: { Self → Meaning };

    /// Begins to take the lock; refused unless it is idle.
    fn acquire(&mut self, mode: Mode) -> bool
        requires { MayUse (meaning self.old).rules.form mode }
        ensures answer { result ≡ plan.is_idle (meaning self.old).pass.phase }
        ensures after { meaning self.new ≡ waiting.acquires mode (meaning self.old) };

    /// Begins to give the lock back; refused unless it holds the lock and owes no step.
    fn release(&mut self) -> bool
        ensures answer { result ≡ plan.is_resting (meaning self.old).pass }
        ensures after { meaning self.new ≡ waiting.releases (meaning self.old) };

    /// Whether it has a step to make.
    fn moving(&self) -> bool
        ensures { result ≡ plan.moving (meaning self.now).pass };

    /// What the next step asks the policy.
    fn ask(&self) -> Ask
        ensures { result ≡ waiting.ask (meaning self.now).rules (meaning self.now).pass };

    /// The phase, as far as parking depends on it.
    fn watch(&self) -> Watch
        ensures { result
            ≡ waiting.watch_at (meaning self.now).pass.reg (meaning self.now).pass.phase };

    fn nap(&self) -> Nap
        ensures { result ≡ (meaning self.now).pass.nap };

    fn phase(&self) -> Phase
        ensures { result ≡ (meaning self.now).pass.phase };

    fn registers(&self) -> Registers
        ensures { result ≡ (meaning self.now).pass.reg };

    /// The operation of the next step. An idle pass and a holder name a load that nobody makes.
    fn plan(&self) -> Access
        ensures { result ≡ waiting.next_access (meaning self.now) };

    /// Goes on by what the operation found. Where it stores, `found` isn't looked at.
    fn take(&mut self, found: u64, choice: bool)
        requires form { waiting.MayFind (meaning self.old) found }
        ensures { meaning self.new ≡ waiting.takes (meaning self.old) found choice };
}
