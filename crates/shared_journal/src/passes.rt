//! Passes, which add entries, and what others know of the journal.
ghost use Rattle.std.specs.Prelude.{◌≡◌, ◌-◌, ◌<◌, true, false, length, IfSome};
ghost use Rattle.shared_journal.specs.Entries.{StartsWith, entries_by};
ghost use Rattle.shared_journal.specs.Models.{AddsEntry, with_list, with_second};

use crate::journal::Journal;
use crate::table::JournalTable;
use crate::view::{NextPrefix, Together, View};
use atomic_table::Seat;
use std::marker::Model;
use std::sync::Wait;

/// A caller's right to add so many entries. It crosses threads.
#[derive(Drop)]
pub struct JournalPass<J: Journal> {
    pub(crate) number: u32,
    pub(crate) left: u32,
    pub(crate) seat: Seat<Option<J>, View<J::Entry>>,
}

impl<J: Journal> Model for JournalPass<J> {
    ghost use Rattle.shared_journal.specs.Models.{PassModel, PassInvariant, opening_of, limit_of};

    ghost Value = { PassModel J.Entry };

    ghost view = { λ p. record {
      table = p.seat.table_id;
      number = p.number;
      left = p.left;
      opening = opening_of p.seat.me.0;
      limit = limit_of p.seat.me.0;
      seen = p.seat.me.0.list;
      is_out = p.seat.me.0.out;
    } };

    ghost invariant = { λ p. PassInvariant J.worker p.number p.left p.seat.me };
}

/// A beginning of the journal that its holder knows.
#[derive(Drop)]
pub struct KnownPrefix<J: Journal> {
    pub(crate) seat: Seat<Option<J>, View<J::Entry>>,
}

impl<J: Journal> Model for KnownPrefix<J> {
    ghost use Rattle.std.specs.Prelude.{◌≡◌, false, []};
    ghost use Rattle.shared_journal.specs.Models.{PrefixModel};

    ghost Value = { PrefixModel J.Entry };

    ghost view = { λ p. record { table = p.seat.table_id; list = p.seat.me.0.list } };

    ghost invariant = { λ p. (p.seat.me.0.out ≡ false) × (p.seat.me.1 ≡ [])
        × (p.seat.me.0.own ≡ []) × (p.seat.me.0.joined ≡ []) };
}

impl<J: Journal + Drop> KnownPrefix<J> {
    /// Another that knows the same.
    pub fn split(&mut self, table: &JournalTable<J>) -> KnownPrefix<J>
        requires { self.old.table ≡ table.now.id }
        ensures same { self.new ≡ self.old }
        ensures prefix { result ≡ self.old }
    {
        let shared = &table.table.shared;
        KnownPrefix {
            seat: shared.split_seat::<NextPrefix>(&mut self.seat),
        }
    }
}

impl<J: Journal + Drop> JournalPass<J> {
    /// Its place among the passes of the table, from 0 on.
    pub fn number(&self) -> u32
        ensures { result ≡ self.now.number }
    {
        self.number
    }

    /// How many entries it may still add.
    pub fn left(&self) -> u32
        ensures { result ≡ self.now.left }
    {
        self.left
    }

    /// Takes the journal out, waiting while it is out, with what one or two others know of it. Takes no memory.
    pub fn begin<R: Wait>(
        &mut self,
        rt: &R,
        table: &JournalTable<J>,
        first: KnownPrefix<J>,
        second: Option<KnownPrefix<J>>,
    ) -> J
        requires table { self.old.table ≡ table.now.id }
        requires prefixes { (first.table ≡ table.now.id)
            × IfSome second (λ p. p.table ≡ table.now.id) }
        requires home { self.old.is_out ≡ false }
        ensures pass { self.new ≡ record self.old { seen = J.entries result; is_out = true } }
        ensures seen { StartsWith (J.entries result) self.old.seen }
        ensures first { StartsWith (J.entries result) first.list }
        ensures second { IfSome second (λ p. StartsWith (J.entries result) p.list) }
        ensures own { entries_by J.worker self.old.number (J.entries result)
            ≡ entries_by J.worker self.old.number self.old.seen }
        ensures room { 0 < self.old.left → length (J.entries result) < J.limit result }
        ensures opening { J.opening result ≡ self.old.opening }
        ensures limit { J.limit result ≡ self.old.limit }
        ensures legal { J.legal self.old.opening (J.entries result) }
    {
        join_both(table, &mut self.seat, first, second);
        table.take_out(rt, &mut self.seat)
    }

    /// Puts the journal back, with one entry of this pass more. Takes no memory.
    pub fn end(&mut self, table: &JournalTable<J>, journal: J)
        requires table { self.old.table ≡ table.now.id }
        requires out { self.old.is_out ≡ true }
        requires left { 0 < self.old.left }
        requires adds { AddsEntry J.entries J.limit J.opening J.legal J.worker self.old journal }
        ensures { self.new ≡ record self.old {
          seen = J.entries journal;
          left = self.old.left - 1;
          is_out = false;
        } }
    {
        table.put_back(&mut self.seat, journal);
        self.left -= 1;
    }

    /// Another that knows as much of the journal as the pass.
    pub fn split(&mut self, table: &JournalTable<J>) -> KnownPrefix<J>
        requires { self.old.table ≡ table.now.id }
        ensures same { self.new ≡ self.old }
        ensures prefix { result ≡ record { table = self.old.table; list = self.old.seen } }
    {
        let shared = &table.table.shared;
        KnownPrefix {
            seat: shared.split_seat::<NextPrefix>(&mut self.seat),
        }
    }
}

// The seat has the other's list besides.
fn join_one<J: Journal + Drop>(
    table: &JournalTable<J>,
    seat: &mut Seat<Option<J>, View<J::Entry>>,
    other: KnownPrefix<J>,
)
    requires table { (seat.old.table_id ≡ table.now.id) × (other.table ≡ table.now.id) }
    ensures table { seat.new.table_id ≡ seat.old.table_id }
    ensures joined { seat.new.me ≡ (with_list other.list seat.old.me.0, seat.old.me.1) }
{
    let KnownPrefix { seat: other } = other;
    let shared = &table.table.shared;
    shared.join_seat::<Together>(seat, other);
}

// The seat has the lists of one or two others besides.
fn join_both<J: Journal + Drop>(
    table: &JournalTable<J>,
    seat: &mut Seat<Option<J>, View<J::Entry>>,
    first: KnownPrefix<J>,
    second: Option<KnownPrefix<J>>,
)
    requires table { (seat.old.table_id ≡ table.now.id) × (first.table ≡ table.now.id) }
    requires second { IfSome second (λ p. p.table ≡ table.now.id) }
    ensures table { seat.new.table_id ≡ seat.old.table_id }
    ensures joined { seat.new.me
        ≡ (with_second second (with_list first.list seat.old.me.0), seat.old.me.1) }
{
    join_one(table, seat, first);
    match second {
        None => {}
        Some(second) => join_one(table, seat, second),
    }
}
