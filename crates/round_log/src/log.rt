//! The log of one user.
ghost use Rattle.std.specs.Prelude.{◌≡◌, true, if◌then◌else◌, [], None, Some, option_map};
ghost use Rattle.round_log.specs.Logs.{begun, AddsNote};

use shfl_line::Told;
use std::alloc::Global;
use std::marker::Model;

/// What a policy was told, and under which version: its number, and the place of its policy among the declared ones.
#[derive(Clone, Copy, Debug, PartialEq, Eq, Drop)]
pub struct Note {
    pub version: u64,
    pub which: u32,
    pub told: Told,
}

/// What the policies of a user were told, each call in its turn, where that is kept.
#[derive(Drop)]
pub struct RoundLog {
    notes: Vec<Note>,
    keeps: bool,
}

impl Model for RoundLog {
    ghost use Rattle.std.specs.Prelude.{List, Option, None, Some, if◌then◌else◌};
    ghost use Rattle.round_log.specs.declared.log.Note.{Note};

    ghost Value = { Option (List Note) };

    ghost view = { λ r. if r.keeps then Some r.notes.items else None };
}

impl RoundLog {
    /// A log in which nothing stands yet. Where it isn't to keep anything, it takes no memory, now or later.
    pub fn new(alloc: Global, keeps: bool) -> RoundLog
        ensures { result ≡ begun keeps }
    {
        RoundLog {
            notes: Vec::new(alloc),
            keeps,
        }
    }

    /// All that was told so far. `None` where nothing was to be kept, or where memory was wanting for some of it.
    pub fn notes(&self) -> Option<&[Note]>
        ensures { option_map (λ n. n.now) result ≡ self.now }
    {
        if self.keeps { Some(&self.notes) } else { None }
    }

    /// Notes one thing more. Where memory is wanting for it, nothing is kept from now on.
    pub fn add(&mut self, note: Note)
        ensures { AddsNote self.old self.new note }
    {
        if !self.keeps {
            return;
        }
        if self.notes.push(note).is_err() {
            self.keeps = false;
        }
    }

    /// Nothing is kept from now on, and what was kept is gone.
    pub fn forget(&mut self)
        ensures { self.new ≡ None }
    {
        self.keeps = false;
    }
}
