//! The moves of the lock: each changes what the lock shows by the step of the line that it names.
ghost use Rattle.std.specs.Prelude.{◌≡◌, ◌<◌, length};
ghost use Rattle.shfl_core.specs.declared.words.Word.TheVariants.{Lock as LockWord};
ghost use Rattle.shfl_core.specs.Runner as runner;
ghost use Rattle.shfl_core.specs.Waiting.{MayUse};
ghost use Rattle.shfl_core.specs.Words.{look};
ghost use Rattle.shfl_core.specs.Worlds.{Acquire, Release, Step, admitted};
ghost use Rattle.shfl_line.specs.Line.{IsWellFormed};
ghost use Rattle.shfl_line.specs.Steps.{Admits, after};
ghost use Rattle.shfl_world.specs.LawfulLock.{line_event, shown_by, terms_of};

use crate::showing;
use crate::world::World;
use shfl_core::{Ask, Board, Waiter};
use shfl_line::{LineState, Mode};

impl<W: Waiter> Board for World<W> {
    ghost meaning = { λ w. w };

    fn acquire(&mut self, pass: u32, mode: Mode) -> bool
        requires declared { pass < length self.old.world.passes }
        requires mode { MayUse self.old.rules.form mode }
        ensures answer { result ≡ admitted self.old.world (Acquire pass mode) }
        ensures after { self.new ≡ runner.moved self.old (Acquire pass mode) }
        ensures terms { terms_of self.new ≡ terms_of self.old }
        ensures shown { shown_by self.new ≡ shown_by self.old }
    {
        self.plain.acquire(pass, mode)
    }

    fn release(&mut self, pass: u32) -> bool
        requires declared { pass < length self.old.world.passes }
        ensures answer { result ≡ admitted self.old.world (Release pass) }
        ensures after { self.new ≡ runner.moved self.old (Release pass) }
        ensures terms { terms_of self.new ≡ terms_of self.old }
        ensures shown { shown_by self.new ≡ shown_by self.old }
    {
        self.plain.release(pass)
    }

    fn ask(&self, pass: u32) -> Ask {
        self.plain.ask(pass)
    }

    fn step(&mut self, pass: u32, choice: bool) -> bool
        requires declared { pass < length self.old.world.passes }
        ensures answer { result ≡ admitted self.old.world (Step pass choice) }
        ensures after { self.new ≡ runner.moved self.old (Step pass choice) }
        ensures terms { terms_of self.new ≡ terms_of self.old }
        ensures event { Admits self.old.rules.limit (shown_by self.old)
            (line_event self.old (Step pass choice)) }
        ensures shown { shown_by self.new
            ≡ after (shown_by self.old) (line_event self.old (Step pass choice)) }
    {
        self.plain.step(pass, choice)
    }

    fn asleep(&self, pass: u32) -> bool {
        self.plain.asleep(pass)
    }

    fn show(&mut self, out: &mut LineState)
        requires room { length out.old.mark ≡ length self.old.world.passes }
        ensures shown { out.new ≡ shown_by self.old }
        ensures unchanged { self.new ≡ self.old }
        ensures well_formed { IsWellFormed self.old.rules.limit out.new }
    {
        showing::show(&self.plain, out);
    }

    fn word(&mut self) -> u64
        ensures word { result ≡ look self.old.world.words LockWord }
        ensures unchanged { self.new ≡ self.old }
    {
        self.plain.word()
    }
}
