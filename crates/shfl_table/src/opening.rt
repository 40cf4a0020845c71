//! The opening of a board.
ghost use Rattle.std.specs.Prelude.{◌≡◌, ℕ, ◌<◌, ◌≤◌, true, [], map, All, IfOk, length, vec_len, slice_get, Some};
ghost use Rattle.shfl_core.specs.Waiting.{idle};
ghost use Rattle.shfl_core.specs.Words.{most_passes, wide};
ghost use Rattle.shfl_table.specs.Histories.{AreUntouched, initial_state_of};
ghost use Rattle.shfl_table.specs.PassModel.{IsIdleAt, fresh_pass};
ghost use Rattle.shfl_table.specs.Views.{first_view};
ghost use Rattle.shfl_line.specs.Words.{attr_word};
ghost use Rattle.shfl_laws.specs.Moves.{told_terms};

use crate::board::SharedBoard;
use crate::kept::Kept;
use crate::passes::Pass;
use crate::view::{LawfulBoard, NextPass, Opening, View};
use atomic_table::{Seat, Shared, Table};
use shfl_core::Rules;
use shfl_core::asks::idle_pass;
use shfl_core::words::opening_words;
use shfl_line::{Attr, Form, NoMemory};
use std::alloc::Global;
use std::snapshot::Snapshot;
use waiter_sleep::{QueueFront, Sleepers};

// The pass of a seat that was split off.
fn seated<V: Kept + Drop>(rules: Rules, number: u32, seat: Seat<Option<V>, View>) -> Pass<V>
    requires words { 0 < seat.table_id.words }
    requires view { (seat.me.0.live ≡ true) × (seat.me.0.pass ≡ idle number)
        × (seat.me.0.steps_taken ≡ 0) × (seat.me.0.decisions ≡ []) × (seat.me.0.history ≡ [])
        × (seat.me.0.attempts ≡ 0) × (seat.me.0.found ≡ [])
        × (seat.me.0.back ≡ []) × (seat.me.0.parts ≡ []) × (seat.me.1 ≡ []) }
    ensures { result ≡ fresh_pass seat.me.0.initial_state
        (record { table = seat.table_id; rules = rules; attrs = seat.me.0.attrs }) number }
{
    Pass {
        own: idle_pass(number),
        rules,
        seat,
    }
}

// Each pass but the last splits off the next one.
fn deal<V: Kept + Drop>(
    alloc: Global,
    rules: Rules,
    count: u32,
    shared: &Shared<Option<V>, View, Opening<V>, LawfulBoard>,
    first: Seat<Option<V>, View>,
) -> Result<Vec<Pass<V>>, NoMemory>
    requires count { (0 < count) × (count ≡ shared.now.key.count) }
    requires words { shared.now.table_id.words ≡ wide count }
    requires seat { (first.table_id ≡ shared.now.table_id)
        × (first.me ≡ (
          first_view (told_terms shared.now.key.rules shared.now.key.count
              shared.now.key.words.value.items).attrs
              (initial_state_of V.initial_state shared.now.key.values.value.items),
          [],
        )) }
    ensures { IfOk result (λ v. (vec_len v ≡ count)
        × ((i : ℕ) → i < vec_len v → slice_get v.items i ≡ Some (fresh_pass
        (initial_state_of V.initial_state shared.now.key.values.value.items)
        (record {
          table = shared.now.table_id;
          rules = rules;
          attrs = (told_terms shared.now.key.rules shared.now.key.count
              shared.now.key.words.value.items).attrs;
        }) i))) }
{
    let mut seat = first;
    let mut passes = Vec::with_capacity(alloc, count as usize)?;
    for k in 1..count {
        let next = shared.split_seat::<NextPass>(&mut seat);
        passes.push_reserved(seated(rules, k - 1, seat));
        seat = next;
    }
    passes.push_reserved(seated(rules, count - 1, seat));
    Ok(passes)
}

// A slot for each value.
fn laid<V: Kept + Drop>(alloc: Global, values: Vec<V>) -> Result<Vec<Option<V>>, NoMemory>
    ensures { IfOk result (λ v. v.items ≡ map Some values.items) }
{
    let mut slots = Vec::with_capacity(alloc, values.len())?;
    for value in values {
        slots.push_reserved(Some(value));
    }
    Ok(slots)
}

/// The board that `open` makes, but only the passes below `sleepers` have places to sleep, of 128 bytes each. For another pass `sleep`
/// returns at once, and `wake` does nothing. 0 is for callers whose threads wait in places of their own.
pub fn open_with_sleepers<V: Kept + Drop>(
    alloc: Global,
    attrs: &[Attr],
    form: Form,
    limit: u16,
    values: Vec<V>,
    sleepers: u32,
) -> Result<(SharedBoard<V>, Vec<Pass<V>>), NoMemory>
    requires some { 0 < length attrs.now }
    requires few { length attrs.now ≤ most_passes }
    requires limited { (0 < limit) × (limit ≤ 1024) }
    requires values { AreUntouched V.initial_state V.history values.items }
    ensures board { IfOk result (λ r.
        (r.0.id.rules ≡ record { limit = limit; form = form })
        × (r.0.id.table.slots ≡ vec_len values)
        × (r.0.count ≡ length attrs.now)
        × (r.0.initial_state ≡ initial_state_of V.initial_state values.items)) }
    ensures attrs { IfOk result (λ r. r.0.id.attrs ≡ map attr_word attrs.now) }
    ensures count { IfOk result (λ r. vec_len r.1 ≡ length attrs.now) }
    ensures passes { IfOk result (λ r. (i : ℕ) → i < vec_len r.1 → slice_get r.1.items i
        ≡ Some (fresh_pass (initial_state_of V.initial_state values.items) r.0.id i)) }
    ensures own { IfOk result (λ r. All (IsIdleAt r.0.id) r.1.items) }
{
    let words = opening_words(alloc, attrs)?;
    let rules = Rules { limit, form };
    let count = attrs.len() as u32;
    let opening = Opening {
        rules,
        count,
        words: Snapshot::of(&words),
        values: Snapshot::of(&values),
    };
    let room = Vec::with_capacity(alloc, values.len())?;
    let sleepers = Sleepers::with_count(alloc, sleepers)?;
    let slots = laid(alloc, values)?;
    let Ok((table, seat)) = Table::new(alloc, words.as_slice(), slots, &opening) else {
        return Err(NoMemory);
    };
    let passes = deal(alloc, rules, count, &table.shared, seat)?;
    Ok((
        SharedBoard {
            table,
            room,
            sleepers,
            front: QueueFront::new(),
        },
        passes,
    ))
}

/// A board with an idle pass for each of these attributes, up to 65,535, and with these values behind its lock: none, one, or one for each pass.
/// `limit` bounds a batch, from 1 to 1,024.
pub fn open<V: Kept + Drop>(
    alloc: Global,
    attrs: &[Attr],
    form: Form,
    limit: u16,
    values: Vec<V>,
) -> Result<(SharedBoard<V>, Vec<Pass<V>>), NoMemory>
    requires some { 0 < length attrs.now }
    requires few { length attrs.now ≤ most_passes }
    requires limited { (0 < limit) × (limit ≤ 1024) }
    requires values { AreUntouched V.initial_state V.history values.items }
    ensures board { IfOk result (λ r.
        (r.0.id.rules ≡ record { limit = limit; form = form })
        × (r.0.id.table.slots ≡ vec_len values)
        × (r.0.count ≡ length attrs.now)
        × (r.0.initial_state ≡ initial_state_of V.initial_state values.items)) }
    ensures attrs { IfOk result (λ r. r.0.id.attrs ≡ map attr_word attrs.now) }
    ensures count { IfOk result (λ r. vec_len r.1 ≡ length attrs.now) }
    ensures passes { IfOk result (λ r. (i : ℕ) → i < vec_len r.1 → slice_get r.1.items i
        ≡ Some (fresh_pass (initial_state_of V.initial_state values.items) r.0.id i)) }
    ensures own { IfOk result (λ r. All (IsIdleAt r.0.id) r.1.items) }
{
    open_with_sleepers(alloc, attrs, form, limit, values, attrs.len() as u32)
}
