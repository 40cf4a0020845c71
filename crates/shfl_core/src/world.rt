//! A lock over plain words: its passes make their steps one at a time, in any order.
ghost use Rattle.std.specs.Prelude.{◌≡◌, ℕ, ◌<◌, ◌≤◌, length, IfOk, slice_set, vec_len};
ghost use Rattle.shfl_core.specs.Plan as plan;
ghost use Rattle.shfl_core.specs.Runner as runner;
ghost use Rattle.shfl_core.specs.Waiting as waiting;
ghost use Rattle.shfl_core.specs.Waiting.{MayUse, MakesIdle, rules};
ghost use Rattle.shfl_core.specs.Runner.{opened};
ghost use Rattle.shfl_line.specs.declared.events.Form.{Form};
ghost use Rattle.shfl_core.specs.declared.words.Word.TheVariants.{Lock as LockWord};
ghost use Rattle.shfl_core.specs.Words.{look, put, site, told};
ghost use Rattle.shfl_core.specs.Words as words;
ghost use Rattle.shfl_core.specs.Worlds.{Acquire, Release, Step, admitted, known};

use crate::phase::{Ask, Nap, PassState};
use crate::waiter::Waiter;
use crate::words::{Access, Word, index, opening_words};
use shfl_line::{Attr, Mode, NoMemory};
use std::alloc::Global;
use std::marker::Model;

/// Makes the operation on one of the words, and tells what it found, or, of a store, what it stored.
#[inline(always)]
pub fn perform(list: &mut Vec<u64>, access: Access) -> u64
    requires place { words.index (site access) < length list.old.items }
    ensures told { result ≡ told access (look list.old.items (site access)) }
    ensures long { vec_len list.new ≡ vec_len list.old }
    ensures word { list.new.items ≡ words.written list.old.items access }
{
    match access {
        Access::Load { w } => list[index(w)],
        Access::Store { w, v } => {
            list[index(w)] = v;
            v
        }
        Access::Swap { w, v } => {
            let place = index(w);
            let found = list[place];
            list[place] = v;
            found
        }
        Access::CompareSwap { w, old, new } => {
            let place = index(w);
            let found = list[place];
            if found == old {
                list[place] = new;
            }
            found
        }
        Access::Or { w, v } => {
            let place = index(w);
            let found = list[place];
            list[place] = found | v;
            found
        }
        Access::And { w, v } => {
            let place = index(w);
            let found = list[place];
            list[place] = found & v;
            found
        }
        Access::Xor { w, v } => {
            let place = index(w);
            let found = list[place];
            list[place] = found ^ v;
            found
        }
        Access::Add { w, v } => {
            let place = index(w);
            let found = list[place];
            list[place] = found.wrapping_add(v);
            found
        }
        Access::Sub { w, v } => {
            let place = index(w);
            let found = list[place];
            list[place] = found.wrapping_sub(v);
            found
        }
    }
}

/// A lock whose words are plain numbers, with all its passes. That each move keeps it lawful is a law of `shfl_laws` (`every_move`).
#[derive(Drop)]
pub struct PlainWorld<W: Waiter> {
    words: Vec<u64>,
    passes: Vec<W>,
}

impl<W: Waiter> Model for PlainWorld<W> {
    ghost use Rattle.shfl_core.specs.Runner.{Lock, IsLock, seen_lock};

    ghost Value = { Lock };

    ghost view = { λ s. seen_lock W.meaning s.words.items s.passes.items };

    ghost invariant = { λ s. IsLock W.meaning s.words.items s.passes.items };
}

impl<W: Waiter> PlainWorld<W> {
    /// A lock with a pass for each of these attributes; `make` makes the waiter of a pass, all of one form.
    pub fn open<F: Fn(u32, Attr, u16) -> W>(
        alloc: Global,
        attrs: &[Attr],
        limit: u16,
        make: F,
    ) -> Result<PlainWorld<W>, NoMemory>
        requires some { 0 < length attrs.now }
        requires few { length attrs.now ≤ words.most_passes }
        requires callable { F.IsAlwaysCallable make }
        requires idle { (form : Form)
            × MakesIdle W.meaning (λ k a w. F.post make k a limit w) (rules limit form) }
        ensures { (form : Form)
            → MakesIdle W.meaning (λ k a w. F.post make k a limit w) (rules limit form)
            → IfOk result (λ w. w ≡ opened (rules limit form) attrs.now) }
    {
        let words = opening_words(alloc, attrs)?;
        let mut passes = Vec::with_capacity(alloc, attrs.len())?;
        let mut number = 0;
        for attr in attrs {
            passes.push_reserved(make(number, *attr, limit));
            number += 1;
        }
        Ok(PlainWorld { words, passes })
    }

    /// The pass begins to take the lock; refused unless it is idle.
    pub fn acquire(&mut self, pass: u32, mode: Mode) -> bool
        requires declared { pass < length self.old.world.passes }
        requires mode { MayUse self.old.rules.form mode }
        ensures answer { result ≡ admitted self.old.world (Acquire pass mode) }
        ensures after { self.new ≡ runner.moved self.old (Acquire pass mode) }
    {
        self.passes[pass as usize].acquire(mode)
    }

    /// The pass begins to give the lock back; refused unless it holds the lock and owes no step.
    pub fn release(&mut self, pass: u32) -> bool
        requires declared { pass < length self.old.world.passes }
        ensures answer { result ≡ admitted self.old.world (Release pass) }
        ensures after { self.new ≡ runner.moved self.old (Release pass) }
    {
        self.passes[pass as usize].release()
    }

    /// What the pass asks the policy at its next step.
    pub fn ask(&self, pass: u32) -> Ask
        requires declared { pass < length self.now.world.passes }
        ensures { result ≡ waiting.ask self.now.rules (known self.now.world.passes pass) }
    {
        self.passes[pass as usize].ask()
    }

    /// The pass makes its next step; refused where it has none.
    pub fn step(&mut self, pass: u32, choice: bool) -> bool
        requires declared { pass < length self.old.world.passes }
        ensures answer { result ≡ admitted self.old.world (Step pass choice) }
        ensures after { self.new ≡ runner.moved self.old (Step pass choice) }
    {
        let own = &mut self.passes[pass as usize];
        if !own.moving() {
            return false;
        }
        let access = own.plan();
        let found = perform(&mut self.words, access);
        own.take(found, choice);
        true
    }

    /// Whether the pass is parked and waits to be woken.
    pub fn asleep(&self, pass: u32) -> bool
        requires declared { pass < length self.now.world.passes }
        ensures { result ≡ runner.is_parked (known self.now.world.passes pass).nap }
    {
        matches!(self.passes[pass as usize].nap(), Nap::Hear)
    }

    /// The lock word.
    pub fn word(&self) -> u64
        ensures { result ≡ look self.now.world.words LockWord }
    {
        self.words[0]
    }

    /// How many passes there are.
    pub fn count(&self) -> usize
        ensures { result ≡ length self.now.world.passes }
    {
        self.passes.len()
    }

    /// What the word says.
    pub fn look(&self, word: Word) -> u64
        requires there { words.index word < length self.now.world.words }
        ensures { result ≡ look self.now.world.words word }
    {
        self.words[index(word)]
    }

    /// Where the pass stands.
    pub fn standing(&self, pass: u32) -> PassState
        requires declared { pass < length self.now.world.passes }
        ensures { result ≡ known self.now.world.passes pass }
    {
        let own = &self.passes[pass as usize];
        PassState {
            phase: own.phase(),
            reg: own.registers(),
            nap: own.nap(),
        }
    }
}
