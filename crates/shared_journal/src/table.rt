//! The journal's table, which threads share, and how a seat has the journal out.
ghost use Rattle.std.specs.Prelude.{◌≡◌, ℕ, ◌<◌, ◌≤◌, true, List, [], ◌∷◌, ◌++◌, length, Contains, None, IfSome};
ghost use Rattle.shared_journal.specs.Entries.{IsAmong, StartsWith, entries_by};
ghost use Rattle.shared_journal.specs.Rule.{KnowsOf, with_in, with_out};
ghost use Rattle.shared_journal.specs.Models.{AddsOwn};
ghost use Rattle.shared_journal.specs.declared.view.Own.{Own};

use crate::journal::Journal;
use crate::view::{InTurn, PutBack, TakeOut, Terms, View};
use atomic_table::{Seat, Table};
use std::alloc::Global;
use std::hint;
use std::marker::Model;
use std::sync::Wait;
use std::time::Duration;

// How often a seat pauses between two tries before it naps, and how long the first pause is; each is twice the one before.
const PAUSES: u32 = 5;

const PAUSE: u32 = 4;

// How long the first nap is at most, in microseconds, and how often the next one may be twice as long.
const NAP: u32 = 50;

const LONGER: u32 = 3;

/// The journal's table: a word, which is 1 while the journal is out, and the journal's place.
#[derive(Drop)]
pub struct JournalTable<J: Journal + Drop> {
    pub(crate) table: Table<Option<J>, View<J::Entry>, Terms<J>, InTurn, Global>,
}

impl<J: Journal + Drop> Model for JournalTable<J> {
    ghost use Rattle.std.specs.Prelude.{◌≡◌};
    ghost use Rattle.shared_journal.specs.Models.{TableModel};

    ghost Value = { TableModel };

    ghost view = { λ t. record {
      id = t.table.shared.table_id;
      allowed = t.table.shared.key.allowed.value.items;
      opening = J.opening t.table.shared.key.journal.value;
      limit = J.limit t.table.shared.key.journal.value;
    } };

    ghost invariant = { λ t. (t.table.shared.table_id.words ≡ 1)
        × (t.table.shared.table_id.slots ≡ 1) };
}

impl<J: Journal + Drop> JournalTable<J> {
    // Takes the journal out by one operation, or finds that it is out.
    pub(crate) fn try_take_out(&self, seat: &mut Seat<Option<J>, View<J::Entry>>) -> Option<J>
        requires table { seat.old.table_id ≡ self.now.id }
        requires free { seat.old.me.1 ≡ [] }
        requires numbered { (o : Own _) × IsAmong o seat.old.me.0.own }
        ensures table { seat.new.table_id ≡ seat.old.table_id }
        ensures seat { IfSome result (λ j. seat.new.me
            ≡ (with_out seat.old.me.0 (J.entries j), (0, None) ∷ [])) }
        ensures knows { IfSome result (λ j.
            KnowsOf J.entries J.limit J.opening J.legal J.worker seat.old.me.0 j) }
        ensures same { result ≡ None → seat.new.me ≡ seat.old.me }
    {
        let shared = &self.table.shared;
        if shared.compare_exchange::<TakeOut>(seat, 0, 0, 1) != 0 {
            return None;
        }
        shared.exchange(seat, 0, None)
    }

    // Takes the journal out, trying again while it is out.
    pub(crate) fn take_out<R: Wait>(&self, rt: &R, seat: &mut Seat<Option<J>, View<J::Entry>>) -> J
        requires table { seat.old.table_id ≡ self.now.id }
        requires free { seat.old.me.1 ≡ [] }
        requires numbered { (o : Own _) × IsAmong o seat.old.me.0.own }
        ensures table { seat.new.table_id ≡ seat.old.table_id }
        ensures seat { seat.new.me ≡ (with_out seat.old.me.0 (J.entries result), (0, None) ∷ []) }
        ensures knows { KnowsOf J.entries J.limit J.opening J.legal J.worker seat.old.me.0 result }
    {
        let mut tried: u32 = 0;
        for _ in rt.forever() {
            if let Some(journal) = self.try_take_out(seat) {
                return journal;
            }
            self.back_off(rt, tried);
            tried = tried.saturating_add(1);
        }
        unreachable!()
    }

    // Lets others go on after this try: pauses, and after some tries naps, unless the journal is back already.
    fn back_off<R: Wait>(&self, rt: &R, tried: u32) {
        if tried < PAUSES {
            for _ in 0..PAUSE << tried {
                hint::spin_loop();
            }
        } else {
            let micros = NAP << (tried - PAUSES).min(LONGER);
            let shared = &self.table.shared;
            shared.park_timeout(rt, 0, 1, Duration::from_micros(u64::from(micros)));
        }
    }

    // Puts the journal back, with one entry more of a number that the seat has.
    pub(crate) fn put_back(&self, seat: &mut Seat<Option<J>, View<J::Entry>>, journal: J)
        requires table { seat.old.table_id ≡ self.now.id }
        requires out { (seat.old.me.0.out ≡ true) × (seat.old.me.1 ≡ (0, None) ∷ []) }
        requires adds { AddsOwn J.entries J.limit J.opening J.legal J.worker seat.old.me.0 journal }
        ensures table { seat.new.table_id ≡ seat.old.table_id }
        ensures seat { seat.new.me ≡ (with_in J.worker seat.old.me.0 (J.entries journal), []) }
    {
        let shared = &self.table.shared;
        let _ = shared.exchange(seat, 0, Some(journal));
        shared.store::<PutBack>(seat, 0, 0);
    }
}
