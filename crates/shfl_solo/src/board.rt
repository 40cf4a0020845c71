//! The moves of the lock: each changes what the lock shows by the step of the line that it names.
ghost use Rattle.std.specs.Prelude.{◌≡◌, ◌<◌, true, length};
ghost use Rattle.shfl_core.specs.declared.words.Word.TheVariants.{Lock as LockWord};
ghost use Rattle.shfl_core.specs.Runner as runner;
ghost use Rattle.shfl_core.specs.Waiting.{MayUse};
ghost use Rattle.shfl_core.specs.Words.{look};
ghost use Rattle.shfl_core.specs.Worlds.{Acquire, Release, Step, admitted};
ghost use Rattle.shfl_line.specs.Line.{IsWellFormed};
ghost use Rattle.shfl_line.specs.Steps.{Admits, after};
ghost use Rattle.shfl_world.specs.LawfulLock.{line_event, shown_by, terms_of};
ghost use Rattle.shfl_solo.specs.Steps.{MakesRow, BeginsShortRound};

use crate::operation::{operate, read};
use crate::solo::Solo;
use shfl_core::asks::{acquire_row, ask_row, is_moving, is_resting, release_row};
use shfl_core::plans::plan_row;
use shfl_core::rows::take_row;
use shfl_core::words::{index, site};
use shfl_core::{Ask, Board, Nap, Phase, Word};
use shfl_line::{LineState, Mode};
use shfl_world::showing;
use std::marker::Brand;

impl Board for Solo {
    ghost meaning = { λ s. s };

    fn acquire(&mut self, pass: u32, mode: Mode) -> bool
        requires declared { pass < length self.old.world.passes }
        requires mode { MayUse self.old.rules.form mode }
        ensures answer { result ≡ admitted self.old.world (Acquire pass mode) }
        ensures after { self.new ≡ runner.moved self.old (Acquire pass mode) }
        ensures terms { terms_of self.new ≡ terms_of self.old }
        ensures shown { shown_by self.new ≡ shown_by self.old }
    {
        let own = self.last.passes[pass as usize];
        self.last.passes[pass as usize] = acquire_row(mode, own);
        matches!(own.phase, Phase::Idle)
    }

    fn release(&mut self, pass: u32) -> bool
        requires declared { pass < length self.old.world.passes }
        ensures answer { result ≡ admitted self.old.world (Release pass) }
        ensures after { self.new ≡ runner.moved self.old (Release pass) }
        ensures terms { terms_of self.new ≡ terms_of self.old }
        ensures shown { shown_by self.new ≡ shown_by self.old }
    {
        let own = self.last.passes[pass as usize];
        self.last.passes[pass as usize] = release_row(own);
        is_resting(own)
    }

    fn ask(&self, pass: u32) -> Ask {
        ask_row(self.last.rules, self.last.passes[pass as usize])
    }

    fn step(&mut self, pass: u32, choice: bool) -> bool
        requires declared { pass < length self.old.world.passes }
        ensures answer { result ≡ admitted self.old.world (Step pass choice) }
        ensures after { self.new ≡ runner.moved self.old (Step pass choice) }
        ensures terms { terms_of self.new ≡ terms_of self.old }
        ensures event { Admits self.old.rules.limit (shown_by self.old)
            (line_event self.old (Step pass choice)) }
        ensures shown { shown_by self.new
            ≡ after (shown_by self.old) (line_event self.old (Step pass choice)) }
        ensures row { result ≡ true → MakesRow self.old pass choice self.new }
        ensures round { BeginsShortRound self.old pass self.new }
    {
        let own = self.last.passes[pass as usize];
        if !is_moving(own) {
            return false;
        }
        let rules = self.last.rules;
        let table = &self.table;
        let access = plan_row(rules, pass, own);
        let found = operate::<Brand>(
            &table.shared,
            &mut self.seat,
            access,
            rules,
            pass,
            own,
            choice,
        );
        // Nobody else changes a word, so no other has to be read again.
        let word = site(access);
        self.last.words[index(word)] = read(&table.shared, &mut self.seat, word);
        self.last.passes[pass as usize] = take_row(rules, pass, own, found, choice);
        true
    }

    fn asleep(&self, pass: u32) -> bool {
        matches!(self.last.passes[pass as usize].nap, Nap::Hear)
    }

    fn show(&mut self, out: &mut LineState)
        requires room { length out.old.mark ≡ length self.old.world.passes }
        ensures shown { out.new ≡ shown_by self.old }
        ensures unchanged { self.new ≡ self.old }
        ensures well_formed { IsWellFormed self.old.rules.limit out.new }
    {
        showing::show(&self.last, out);
    }

    fn word(&mut self) -> u64
        ensures word { result ≡ look self.old.world.words LockWord }
        ensures unchanged { self.new ≡ self.old }
    {
        let table = &self.table;
        read(&table.shared, &mut self.seat, Word::Lock)
    }
}
