//! The writes with each worker's reads put between them.
ghost use Rattle.std.specs.Prelude.{◌≡◌, ℕ, ◌≤◌, ◌<◌, ◌+◌, ◌==◌, ◌++◌, List, map, filter, IfOk, OnOk};
ghost use Rattle.std.specs.List.{flat_map};
ghost use Rattle.std.specs.List.Sorted.{IsNonDecreasingBy, IsPermutation};
ghost use Rattle.hist_log.specs.History.{operations, state_left, IsLegal};
ghost use Rattle.hist_log.specs.Merge.{reads_at, merged, AreInOrder, AreWithin, StartsAt, AllStartAt, AreReads, ReadsFit};

use crate::NoMemory;
use crate::entry::Entry;
use crate::object::Object;
use std::alloc::Global;

/// Puts each read after as many writes as its receipt says, reads of one point by worker and then
/// in the worker's order. List k, from 0, has the reads of worker k.
pub fn merge<O: Object>(
    alloc: Global,
    writes: &[Entry<O>],
    reads: &[Vec<Entry<O>>],
) -> Result<Vec<Entry<O>>, NoMemory>
    requires in_order { AreInOrder (λ e. e.receipt) (map (λ v. v.items) reads.now) }
    requires within { AreWithin (λ e. e.receipt) writes.now (map (λ v. v.items) reads.now) }
    ensures order { IfOk result (λ v.
        v.items ≡ merged (λ e. e.receipt) writes.now (map (λ v. v.items) reads.now)) }
    ensures once { IfOk result (λ v.
        IsPermutation (writes.now ++ flat_map (λ v. v.items) reads.now) v.items) }

    // Where the writes are legal, and each read is answered by the writes before its point,
    // the whole is legal.
    ensures legal { (state : List ℕ)
        → IsLegal O.reply_at O.state_after state
        (operations O.call_numbers O.reply_numbers writes.now)
        → ReadsFit O.call_numbers O.reply_numbers O.reads O.reply_at O.state_after state
        writes.now (map (λ v. v.items) reads.now)
        → IfOk result (λ v. IsLegal O.reply_at O.state_after state
        (operations O.call_numbers O.reply_numbers v.items)) }

    // Where only reads are put between them, the whole leaves what the writes leave.
    ensures state { (state : List ℕ)
        → AreReads O.call_numbers O.reads (map (λ v. v.items) reads.now)
        → IfOk result (λ v. state_left O.state_after state
        (operations O.call_numbers O.reply_numbers v.items)
        ≡ state_left O.state_after state
        (operations O.call_numbers O.reply_numbers writes.now)) }
{
    let mut merged = Vec::with_capacity(alloc, entries_in(writes, reads))?;
    let mut starts = vec![in alloc; 0; reads.len()]?;
    for (point, write) in writes.iter().enumerate() {
        append_reads(&mut merged, reads, &mut starts, point as u64)?;
        merged.push(write.copy())?;
    }
    append_reads(&mut merged, reads, &mut starts, writes.len() as u64)?;
    Ok(merged)
}

// How many entries there are in all, for the room that they take.
fn entries_in<O: Object>(writes: &[Entry<O>], reads: &[Vec<Entry<O>>]) -> usize {
    let mut count = writes.len();
    for own in reads {
        count = count.saturating_add(own.len());
    }
    count
}

// Appends the reads that come after `point` writes. `starts` has how far each list was taken.
fn append_reads<O: Object>(
    merged: &mut Vec<Entry<O>>,
    reads: &[Vec<Entry<O>>],
    starts: &mut [usize],
    point: u64,
) -> Result<(), NoMemory>
    requires in_order { AreInOrder (λ e. e.receipt) (map (λ v. v.items) reads.now) }
    requires starts { AllStartAt (λ e. e.receipt) point (map (λ v. v.items) reads.now) starts.old }
    ensures appended { OnOk result (merged.new.items
        ≡ merged.old.items ++ reads_at (λ e. e.receipt) (map (λ v. v.items) reads.now) point) }
    ensures starts { OnOk result
        (AllStartAt (λ e. e.receipt) (point + 1) (map (λ v. v.items) reads.now) starts.new) }
{
    for k in 0..reads.len() {
        starts[k] = append_point(merged, &reads[k], starts[k], point)?;
    }
    Ok(())
}

// Appends a worker's reads at the point, and answers how far its list is taken then.
fn append_point<O: Object>(
    merged: &mut Vec<Entry<O>>,
    reads: &[Entry<O>],
    start: usize,
    point: u64,
) -> Result<usize, NoMemory>
    requires in_order { IsNonDecreasingBy (λ e. e.receipt) reads.now }
    requires start { StartsAt (λ e. e.receipt) point reads.now start }
    ensures appended { OnOk result (merged.new.items
        ≡ merged.old.items ++ filter (λ e. e.receipt == point) reads.now) }
    ensures end { IfOk result (λ end. StartsAt (λ e. e.receipt) (point + 1) reads.now end) }
{
    let mut end = start;
    while end < reads.len() && reads[end].receipt == point {
        merged.push(reads[end].copy())?;
        end += 1;
    }
    Ok(end)
}
