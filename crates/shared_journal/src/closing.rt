//! The closing of a journal's table: it takes all seats back, one at a time, and gives the journal.
ghost use Rattle.std.specs.Prelude.{◌≡◌, ℕ, ◌<◌, ◌≤◌, false, List, [], ◌∷◌, length};
ghost use Rattle.shared_journal.specs.Entries.{IsAmong, StartsWith, entries_by};
ghost use Rattle.shared_journal.specs.Models.{as_own};
ghost use Rattle.shared_journal.specs.declared.view.Own.{Own};

use crate::journal::Journal;
use crate::passes::{JournalPass, KnownPrefix};
use crate::table::JournalTable;
use crate::view::{Together, View};
use atomic_table::Seat;
use std::marker::Model;

/// A table that takes its seats back, one at a time. None of its calls takes memory.
pub struct Closing<J: Journal + Drop> {
    table: JournalTable<J>,
    desk: Seat<Option<J>, View<J::Entry>>,
}

impl<J: Journal + Drop> Model for Closing<J> {
    ghost use Rattle.std.specs.Prelude.{◌≡◌, false, [], ◌∷◌, ◌++◌};
    ghost use Rattle.shared_journal.specs.Models.{ClosingModel};

    ghost Value = { ClosingModel J.Entry };

    ghost view = { λ c. record {
      table = c.table;
      lists = c.desk.me.0.joined ++ c.desk.me.0.list ∷ [];
      numbers = c.desk.me.0.own;
    } };

    ghost invariant = { λ c. (c.desk.table_id ≡ c.table.id) × (c.desk.me.0.out ≡ false)
        × (c.desk.me.1 ≡ []) };
}

impl<J: Journal + Drop> Closing<J> {
    /// Begins with one pass of the table.
    pub fn new(table: JournalTable<J>, first: JournalPass<J>) -> Closing<J>
        requires table { first.table ≡ table.id }
        requires home { first.is_out ≡ false }
        ensures { result ≡ record {
          table = table;
          lists = first.seen ∷ [];
          numbers = as_own J.worker first ∷ [];
        } }
    {
        let JournalPass {
            number: _,
            left: _,
            seat: desk,
        } = first;
        Closing { table, desk }
    }

    /// Takes one pass more.
    pub fn give(&mut self, pass: JournalPass<J>)
        requires table { pass.table ≡ self.old.table.id }
        requires home { pass.is_out ≡ false }
        ensures { self.new ≡ record self.old {
          lists = pass.seen ∷ self.old.lists;
          numbers = as_own J.worker pass ∷ self.old.numbers;
        } }
    {
        let JournalPass {
            number: _,
            left: _,
            seat: other,
        } = pass;
        let outer = &self.table;
        let table = &outer.table;
        table.shared.join_seat::<Together>(&mut self.desk, other);
    }

    /// Takes one that knows a beginning of the journal.
    pub fn give_prefix(&mut self, prefix: KnownPrefix<J>)
        requires { prefix.table ≡ self.old.table.id }
        ensures { self.new ≡ record self.old { lists = prefix.list ∷ self.old.lists } }
    {
        let KnownPrefix { seat: other } = prefix;
        let outer = &self.table;
        let table = &outer.table;
        table.shared.join_seat::<Together>(&mut self.desk, other);
    }

    /// The journal, once all passes are given back: it begins with each list that was given, has each pass's entries as that pass saw
    /// them, and no others.
    pub fn finish(self) -> J
        requires all { (k : ℕ) → k < length self.table.allowed
            → (o : Own _) × IsAmong o self.numbers × (o.number ≡ k) }
        ensures begins { (l : List _) → IsAmong l self.lists → StartsWith (J.entries result) l }
        ensures own { (o : Own _) → IsAmong o self.numbers
            → o.entries ≡ entries_by J.worker o.number (J.entries result) }
        ensures only { (k : ℕ) → length self.table.allowed ≤ k
            → entries_by J.worker k (J.entries result) ≡ [] }
        ensures opening { J.opening result ≡ self.table.opening }
        ensures legal { J.legal self.table.opening (J.entries result) }
    {
        let Closing { table, desk } = self;
        let JournalTable { table } = table;
        let mut closed = table.close_with(desk);
        let slot = closed.take(0);
        closed.free();
        let Some(journal) = slot else { unreachable!() };
        journal
    }
}
