//! A caller's right to make so many calls of a sharded directory.
ghost use Rattle.std.specs.Prelude.{◌≡◌, ◌-◌, ◌<◌, [], true, false, length, OnOk};
ghost use Rattle.shfl_core.specs.Plan.{is_idle};
ghost use Rattle.shfl_table.specs.PassModel.{as_given, as_part};
ghost use Rattle.dir_shards.specs.ShardPasses.{MayAdd, with_lock, without_last};
ghost use Rattle.dir_shards.specs.Closings.{EndsOn, part_at};

use crate::dir_journal::DirJournal;
use crate::kept_shard::KeptShard;
use shared_journal::JournalPass;
use shfl_line::{Attr, NoMemory};
use shfl_table::Pass;
use std::marker::Model;

/// A caller's right to make so many calls of a sharded directory.
#[derive(Drop)]
pub struct ShardPass {
    pub(crate) passes: Vec<Pass<KeptShard>>,
    pub(crate) journal: JournalPass<DirJournal>,
    pub(crate) attr: Attr,
}

impl Model for ShardPass {
    ghost use Rattle.std.specs.Prelude.{map, slice_index};
    ghost use Rattle.dir_shards.specs.ShardPasses.{ShardPassModel, ShardPassInvariant};

    ghost Value = { ShardPassModel };

    ghost view = { λ p. record {
      locks = map (λ q. q.board) p.passes.items;
      decisions = map (λ q. q.decisions) p.passes.items;
      journal = p.journal.table;
      room = slice_index p.journal.opening 0;
      number = p.journal.number;
      seen = p.journal.seen;
      left = p.journal.left;
      attr = p.attr;
    } };

    ghost invariant = { λ p. ShardPassInvariant p.passes.items p.journal };
}

impl ShardPass {
    /// The pass's number, from 0.
    pub fn number(&self) -> u32
        ensures { result ≡ self.now.number }
    {
        self.journal.number()
    }

    /// How many calls it may still make.
    pub fn left(&self) -> u32
        ensures { result ≡ self.now.left }
    {
        self.journal.left()
    }

    // Adds its own pass of the next lock.
    pub(crate) fn add_lock(&mut self, pass: Pass<KeptShard>) -> Result<(), NoMemory>
        requires { MayAdd self.old pass }
        ensures { OnOk result (self.new ≡ with_lock pass.board self.old) }
    {
        let Ok(()) = self.passes.push(pass) else {
            return Err(NoMemory);
        };
        Ok(())
    }

    // Gives its own pass of the last lock back.
    pub(crate) fn take_last(&mut self) -> Pass<KeptShard>
        requires { 0 < length self.old.locks }
        ensures pass { self.new ≡ without_last self.old }
        ensures lock { EndsOn result.board self.old }
        ensures idle { is_idle result.own.phase ≡ true }
        ensures given { as_given result ≡ record { number = self.old.number; history = [] } }
        ensures part { as_part result ≡ part_at (length self.old.locks - 1)
            result.steps_taken result.found result.attempts self.old }
        ensures asked { length self.old.decisions ≡ length self.old.locks }
    {
        let Some(pass) = self.passes.pop() else {
            unreachable!()
        };
        pass
    }

    // Its pass at the journal's table.
    pub(crate) fn into_journal(self) -> JournalPass<DirJournal>
        ensures table { result.table ≡ self.journal }
        ensures home { result.is_out ≡ false }
        ensures number { result.number ≡ self.number }
        ensures seen { result.seen ≡ self.seen }
    {
        self.journal
    }
}
