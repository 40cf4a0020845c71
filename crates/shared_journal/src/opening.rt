//! The opening of a journal's table.
ghost use Rattle.std.specs.Prelude.{◌≡◌, ℕ, ◌+◌, ◌<◌, ◌≤◌, [], IfOk, length, vec_len, slice_get, slice_index, sum, Some};
ghost use Rattle.shared_journal.specs.Rule.{first_view};
ghost use Rattle.shared_journal.specs.Models.{dealt_view, fresh_pass, nothing_known};

use crate::NoMemory;
use crate::journal::Journal;
use crate::passes::{JournalPass, KnownPrefix};
use crate::table::JournalTable;
use crate::view::{InTurn, NextPass, Terms, View};
use atomic_table::{Seat, Shared, Table};
use std::alloc::Global;
use std::snapshot::Snapshot;

// The next pass, with the first number that the seat has.
fn next_pass<J: Journal + Drop>(
    shared: &Shared<Option<J>, View<J::Entry>, Terms<J>, InTurn>,
    calls: &[u32],
    k: usize,
    seat: &mut Seat<Option<J>, View<J::Entry>>,
) -> JournalPass<J>
    requires place { (k < length calls.now) × (length calls.now < 4294967296) }
    requires table { (seat.old.table_id ≡ shared.now.table_id) × (0 < shared.now.table_id.words) }
    requires seat { seat.old.me ≡ (
      dealt_view calls.now (J.opening shared.now.key.journal.value)
          (J.limit shared.now.key.journal.value) k,
      [],
    ) }
    ensures table { seat.new.table_id ≡ seat.old.table_id }
    ensures seat { seat.new.me ≡ (
      dealt_view calls.now (J.opening shared.now.key.journal.value)
          (J.limit shared.now.key.journal.value) (k + 1),
      [],
    ) }
    ensures pass { result ≡ fresh_pass shared.now.table_id
        (J.opening shared.now.key.journal.value) (J.limit shared.now.key.journal.value)
        k (slice_index calls.now k) }
{
    JournalPass {
        number: k as u32,
        left: calls[k],
        seat: shared.split_seat::<NextPass>(seat),
    }
}

// A pass for each number, in order, and the seat that is left.
fn deal<J: Journal + Drop>(
    alloc: Global,
    shared: &Shared<Option<J>, View<J::Entry>, Terms<J>, InTurn>,
    calls: &[u32],
    first: Seat<Option<J>, View<J::Entry>>,
) -> Result<(Vec<JournalPass<J>>, KnownPrefix<J>), NoMemory>
    requires few { length calls.now < 4294967296 }
    requires table { (first.table_id ≡ shared.now.table_id) × (0 < shared.now.table_id.words) }
    requires seat { first.me ≡ (
      first_view calls.now (J.opening shared.now.key.journal.value)
          (J.limit shared.now.key.journal.value),
      [],
    ) }
    ensures count { IfOk result (λ r. vec_len r.0 ≡ length calls.now) }
    ensures passes { IfOk result (λ r. (k : ℕ) → k < length calls.now
        → slice_get r.0.items k ≡ Some (fresh_pass shared.now.table_id
        (J.opening shared.now.key.journal.value) (J.limit shared.now.key.journal.value)
        k (slice_index calls.now k))) }
    ensures prefix { IfOk result (λ r. r.1 ≡ nothing_known shared.now.table_id) }
{
    let mut seat = first;
    let mut passes = Vec::with_capacity(alloc, calls.len())?;
    for k in 0..calls.len() {
        passes.push_reserved(next_pass(shared, calls, k, &mut seat));
    }
    Ok((passes, KnownPrefix { seat }))
}

impl<J: Journal + Drop> JournalTable<J> {
    /// A table with an empty journal, a pass for each of `calls`, which may add as many entries, and one that knows of no entry. The
    /// journal has room for all of them.
    pub fn open(
        alloc: Global,
        journal: J,
        calls: &[u32],
    ) -> Result<(JournalTable<J>, Vec<JournalPass<J>>, KnownPrefix<J>), NoMemory>
        requires empty { J.entries journal ≡ [] }
        requires few { length calls.now < 4294967296 }
        requires room { sum calls.now ≤ J.limit journal }
        requires legal { J.legal (J.opening journal) [] }
        ensures table { IfOk result (λ r. (r.0.allowed ≡ calls.now)
            × (r.0.opening ≡ J.opening journal) × (r.0.limit ≡ J.limit journal)) }
        ensures count { IfOk result (λ r. vec_len r.1 ≡ length calls.now) }
        ensures passes { IfOk result (λ r. (k : ℕ) → k < length calls.now
            → slice_get r.1.items k ≡ Some (fresh_pass r.0.id (J.opening journal)
            (J.limit journal) k (slice_index calls.now k))) }
        ensures prefix { IfOk result (λ r. r.2 ≡ nothing_known r.0.id) }
    {
        let terms = Terms {
            allowed: Snapshot::of(&Vec::from_slice(alloc, calls)?),
            journal: Snapshot::of(&journal),
        };
        let mut slots = Vec::with_capacity(alloc, 1)?;
        slots.push_reserved(Some(journal));
        let Ok((table, seat)) = Table::new(alloc, &[0], slots, &terms) else {
            return Err(NoMemory);
        };
        let (passes, prefix) = deal(alloc, &table.shared, calls, seat)?;
        Ok((JournalTable { table }, passes, prefix))
    }
}
