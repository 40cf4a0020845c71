//! The pool's opening.
ghost use Rattle.std.specs.Prelude.{◌≡◌, ◌+◌, ◌*◌, ◌<◌, ◌≤◌, ◌++◌, List, All, length, map, vec_len, vec_capacity, IfOk, OnOk};
ghost use Rattle.shfl_line.specs.Words.{attr_word};
ghost use Rattle.shfl_cell.specs.Cells.{AreInOrder};
ghost use Rattle.call_queue.specs.Queues.{IsFresh, LastHasTheRest};
ghost use Rattle.call_pool.specs.Pools.{IsPassOf, IsUnused, HaveAttrs, FirstHasTheRest, ArePaired};

use crate::pool::{MOST, Pool, PoolOf, PoolPass, PoolPassOf};
use call_queue::{CallQueue, Taker};
use hist_log::{Numbered, Object};
use shfl_cell::{CellPassOf, ShflCellOf};
use shfl_line::{Attr, Form, NoMemory};
use shfl_table::{Book, Kept};
use std::alloc::Global;

// A pass of the pool, with room for all passes of the cell at the closing.
fn new_pass<C: Copy, V: Kept + Drop>(
    alloc: Global,
    taker: Taker<C>,
    cell: CellPassOf<V>,
) -> Result<PoolPassOf<C, V>, NoMemory>
    ensures { IfOk result (λ p. p ≡ record { taker = taker; cell = cell }) }
{
    let room = Vec::with_capacity(alloc, MOST)?;
    Ok(PoolPassOf { taker, cell, room })
}

// A pass of the pool for each of these of the cell, behind those that are there.
fn pair_all<C: Copy, V: Kept + Drop>(
    alloc: Global,
    queue: &CallQueue<C>,
    mut takers: Vec<Taker<C>>,
    cells: Vec<CellPassOf<V>>,
    passes: &mut Vec<PoolPassOf<C, V>>,
) -> Result<(), NoMemory>
    requires count { vec_len takers ≡ vec_len cells }
    requires room { vec_len passes.old + vec_len cells ≤ vec_capacity passes.old }
    requires fresh { All (IsFresh queue.now.id queue.now.calls) takers.items }
    ensures { OnOk result ((added : List _) × (passes.new.items ≡ passes.old.items ++ added)
        × ArePaired queue.now cells.items added) }
{
    let _ = queue;
    for cell in cells {
        let Some(taker) = takers.pop() else {
            unreachable!()
        };
        passes.push_reserved(new_pass(alloc, taker, cell)?);
    }
    Ok(())
}

// A pass of the pool for each of the cell's, the first of which has the last of the takers.
fn pair<C: Copy, V: Kept + Drop>(
    alloc: Global,
    queue: &CallQueue<C>,
    mut takers: Vec<Taker<C>>,
    mut cells: Vec<CellPassOf<V>>,
) -> Result<Vec<PoolPassOf<C, V>>, NoMemory>
    requires count { (vec_len takers ≡ vec_len cells) × (0 < vec_len cells) }
    requires rest { LastHasTheRest takers.items }
    requires fresh { All (IsFresh queue.now.id queue.now.calls) takers.items }
    ensures rest { IfOk result (λ v. FirstHasTheRest v.items) }
    ensures paired { IfOk result (λ v. ArePaired queue.now cells.items v.items) }
{
    let mut passes = Vec::with_capacity(alloc, cells.len())?;
    let Some(last) = takers.pop() else {
        unreachable!()
    };
    passes.push_reserved(new_pass(alloc, last, cells.remove(0))?);
    pair_all(alloc, queue, takers, cells, &mut passes)?;
    Ok(passes)
}

impl<O: Object + Drop> PoolOf<O::Call, Book<Numbered<O>>> {
    /// These calls in a queue, with their places from 0, and the object behind a lock of the parking form; with a pass for each of
    /// the attributes. `limit` is the longest batch of a round. All memory is taken here.
    pub fn open(
        alloc: Global,
        object: O,
        attrs: &[Attr],
        limit: u16,
        calls: &[O::Call],
    ) -> Result<(Pool<O>, Vec<PoolPass<O>>), NoMemory>
        requires passes { (0 < length attrs.now) × (length attrs.now ≤ 16) }
        requires limited { (0 < limit) × (limit ≤ 1024) }
        requires few { length calls.now ≤ 4096 }
        requires spare { length attrs.now * length calls.now ≤ O.spare object }
        requires admitted { All (λ c. O.admits (O.state_numbers object) (O.call_numbers c))
            calls.now }
        ensures calls { IfOk result (λ r. r.0.queue.calls ≡ calls.now) }
        ensures cell { IfOk result (λ r. (r.0.cell.opening ≡ O.state_numbers object)
            × (r.0.cell.count ≡ length attrs.now)) }
        ensures rules { IfOk result (λ r.
            r.0.cell.id.rules ≡ record { limit = limit; form = Form.Park }) }
        ensures attr_words { IfOk result (λ r. r.0.cell.id.attrs ≡ map attr_word attrs.now) }
        ensures count { IfOk result (λ r. vec_len r.1 ≡ length attrs.now) }
        ensures passes { IfOk result (λ r.
            All (IsPassOf O.call_numbers O.admits r.0) r.1.items) }
        ensures unused { IfOk result (λ r. All IsUnused r.1.items) }
        ensures attrs { IfOk result (λ r. HaveAttrs attrs.now r.1.items) }
        ensures in_order { IfOk result (λ r. AreInOrder (map (λ p. p.cell) r.1.items)) }
    {
        let each = calls.len() as u32;
        let counts = Vec::from_elem(alloc, each, attrs.len())?;
        let object = Numbered::new(object);
        let (cell, cells) = ShflCellOf::open(
            alloc,
            object,
            attrs,
            Form::Park,
            limit,
            counts.as_slice(),
        )?;
        let (queue, takers) = CallQueue::open(alloc, calls, attrs.len() as u32)?;
        let passes = pair(alloc, &queue, takers, cells)?;
        Ok((PoolOf { queue, cell }, passes))
    }
}
