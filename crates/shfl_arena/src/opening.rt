//! The opening of an arena.
ghost use Rattle.std.specs.Prelude.{◌≡◌, ℕ, ◌+◌, ◌*◌, ◌<◌, ◌≤◌, [], map, All, IfOk, length, vec_len, slice_get, Some};
ghost use Rattle.shfl_arena.specs.ArenaOpening as openings;
ghost use Rattle.shfl_arena.specs.ArenaWords as words;
ghost use Rattle.shfl_arena.specs.ArenaWords.{word_count};
ghost use Rattle.shfl_arena.specs.Threads.{new_thread};
ghost use Rattle.shfl_arena.specs.SeatModels.{IsNewAt, fresh_seat};
ghost use Rattle.shfl_arena.specs.SeatViews.{new_seat};
ghost use Rattle.shfl_core.specs.Words.{most_passes};

use crate::arena::Arena;
use crate::seats::ArenaSeat;
use crate::shape::{Shape, first_node, stride};
use crate::view::{LawfulArena, NextSeat, Opening, SeatView};
use atomic_table::{Seat, Shared, Table};
use shfl_core::Rules;
use shfl_core::asks::idle_pass;
use shfl_core::words::opening_words;
use shfl_line::{Attr, Form, NoMemory};
use std::alloc::Global;
use waiter_sleep::{QueueFronts, Sleepers};

// How many words an opening of the model has before its first node.
const HEAD: usize = 20;

// The words of an arena at its opening.
fn arena_words(alloc: Global, shape: Shape, attrs: &[Attr]) -> Result<Vec<u64>, NoMemory>
    requires few { length attrs.now ≤ most_passes }
    ensures { IfOk result (λ w. w.items ≡ openings.arena_words shape attrs.now) }
{
    let nodes = opening_words(alloc, attrs)?;
    let mut words = vec![in alloc; 0; first_node(shape)]?;
    words.extend_from_slice(&nodes[HEAD..])?;
    Ok(words)
}

// The seat of this number, of a thread that did nothing.
fn seated<V: Drop>(
    rules: Rules,
    shape: Shape,
    number: u32,
    seat: Seat<Option<V>, SeatView>,
) -> ArenaSeat<V>
    requires words { words.first_node shape + 10 * number + 3 < seat.table_id.words }
    requires view { (seat.me.0.number ≡ number) × (seat.me.0.seats ≡ 1)
        × (seat.me.0.thread ≡ new_thread)
        × (seat.me.0.steps_taken ≡ 0) × (seat.me.0.decisions ≡ []) × (seat.me.1 ≡ []) }
    ensures { result ≡ fresh_seat (record {
      table = seat.table_id;
      rules = rules;
      shape = shape;
    }) number }
{
    ArenaSeat {
        own: idle_pass(number),
        lock: 0,
        rules,
        shape,
        stride: stride(shape.spread),
        seat,
    }
}

// Each seat but the last splits off the next one.
fn deal<V: Drop>(
    alloc: Global,
    rules: Rules,
    shape: Shape,
    threads: u32,
    shared: &Shared<Option<V>, SeatView, Opening, LawfulArena>,
    first: Seat<Option<V>, SeatView>,
) -> Result<Vec<ArenaSeat<V>>, NoMemory>
    requires threads { (0 < threads) × (threads ≡ shared.now.key.threads) }
    requires some { 0 < shared.now.key.shape.locks }
    requires words { shared.now.table_id.words ≡ word_count shape threads }
    requires seat { (first.table_id ≡ shared.now.table_id) × (first.me ≡ (new_seat 0, [])) }
    ensures { IfOk result (λ v. (vec_len v ≡ threads)
        × ((i : ℕ) → i < vec_len v → slice_get v.items i ≡ Some (fresh_seat (record {
          table = shared.now.table_id;
          rules = rules;
          shape = shape;
        }) i))) }
{
    let mut seat = first;
    let mut seats = Vec::with_capacity(alloc, threads as usize)?;
    for k in 1..threads {
        let next = shared.split_seat::<NextSeat>(&mut seat);
        seats.push_reserved(seated(rules, shape, k - 1, seat));
        seat = next;
    }
    seats.push_reserved(seated(rules, shape, threads - 1, seat));
    Ok(seats)
}

// A slot for each value.
fn laid<V: Drop>(alloc: Global, values: Vec<V>) -> Result<Vec<Option<V>>, NoMemory>
    ensures { IfOk result (λ v. v.items ≡ map Some values.items) }
{
    let mut slots = Vec::with_capacity(alloc, values.len())?;
    for value in values {
        slots.push_reserved(Some(value));
    }
    Ok(slots)
}

// How many fronts of queues it has: none where nobody sleeps.
fn fronts_for(shape: Shape, sleepers: u32) -> u32 {
    if sleepers == 0 { 0 } else { shape.locks }
}

impl<V: Drop> Arena<V> {
    /// The arena that `open` makes, but only the threads below `sleepers` have places to sleep, of 128 bytes each. Another thread that waits gives its processor
    /// away in place of sleeping. 0 is for callers whose threads wait in places of their own.
    pub fn open_with_sleepers(
        alloc: Global,
        shape: Shape,
        attrs: &[Attr],
        form: Form,
        limit: u16,
        values: Vec<V>,
        sleepers: u32,
    ) -> Result<(Arena<V>, Vec<ArenaSeat<V>>), NoMemory>
        requires locks { (0 < shape.locks) × (shape.locks ≤ 16777216) }
        requires some { 0 < length attrs.now }
        requires few { length attrs.now ≤ most_passes }
        requires limited { (0 < limit) × (limit ≤ 1024) }
        ensures rules { IfOk result (λ r.
            r.0.id.rules ≡ record { limit = limit; form = form }) }
        ensures shape { IfOk result (λ r. r.0.id.shape ≡ shape) }
        ensures threads { IfOk result (λ r. r.0.threads ≡ length attrs.now) }
        ensures slots { IfOk result (λ r. r.0.id.table.slots ≡ vec_len values) }
        ensures count { IfOk result (λ r. vec_len r.1 ≡ length attrs.now) }
        ensures seats { IfOk result (λ r. (i : ℕ) → i < vec_len r.1
            → slice_get r.1.items i ≡ Some (fresh_seat r.0.id i)) }
        ensures fresh { IfOk result (λ r. All (IsNewAt r.0.id) r.1.items) }
    {
        let words = arena_words(alloc, shape, attrs)?;
        let rules = Rules { limit, form };
        let threads = attrs.len() as u32;
        let opening = Opening {
            shape,
            rules,
            threads,
        };
        let fronts = QueueFronts::with_count(alloc, fronts_for(shape, sleepers))?;
        let sleepers = Sleepers::with_count(alloc, sleepers)?;
        let slots = laid(alloc, values)?;
        let Ok((table, seat)) = Table::new(alloc, words.as_slice(), slots, &opening) else {
            return Err(NoMemory);
        };
        let seats = deal(alloc, rules, shape, threads, &table.shared, seat)?;
        Ok((
            Arena {
                table,
                sleepers,
                fronts,
            },
            seats,
        ))
    }

    /// An arena of so many locks, 1 to 2^24, and a seat for each of these threads, 1 to 65,535, with its attributes. Each lock is of
    /// this form, and bounds a batch by `limit`, 1 to 1,024. A lock takes 16 bytes, or, spread, a cache line for each of its two words;
    /// a thread takes 80, its seat, and 128 for its place to sleep; and what is known of the queues takes 256 for each lock up to 64 locks.
    /// `values` stand behind the first locks: none, or one for each. No memory is taken after this.
    pub fn open(
        alloc: Global,
        shape: Shape,
        attrs: &[Attr],
        form: Form,
        limit: u16,
        values: Vec<V>,
    ) -> Result<(Arena<V>, Vec<ArenaSeat<V>>), NoMemory>
        requires locks { (0 < shape.locks) × (shape.locks ≤ 16777216) }
        requires some { 0 < length attrs.now }
        requires few { length attrs.now ≤ most_passes }
        requires limited { (0 < limit) × (limit ≤ 1024) }
        ensures rules { IfOk result (λ r.
            r.0.id.rules ≡ record { limit = limit; form = form }) }
        ensures shape { IfOk result (λ r. r.0.id.shape ≡ shape) }
        ensures threads { IfOk result (λ r. r.0.threads ≡ length attrs.now) }
        ensures slots { IfOk result (λ r. r.0.id.table.slots ≡ vec_len values) }
        ensures count { IfOk result (λ r. vec_len r.1 ≡ length attrs.now) }
        ensures seats { IfOk result (λ r. (i : ℕ) → i < vec_len r.1
            → slice_get r.1.items i ≡ Some (fresh_seat r.0.id i)) }
        ensures fresh { IfOk result (λ r. All (IsNewAt r.0.id) r.1.items) }
    {
        let sleepers = attrs.len() as u32;
        Arena::open_with_sleepers(alloc, shape, attrs, form, limit, values, sleepers)
    }
}
