//! The pool's closing.
ghost use Rattle.std.specs.Prelude.{◌≡◌, ℕ, ◌+◌, ◌≤◌, ◌++◌, ◌||◌, true, All, Any, [], map, vec_len, vec_capacity};
ghost use Rattle.std.specs.List.{flat_map, list_any, sum_by};
ghost use Rattle.hist_log.specs.History.{operations, state_left};
ghost use Rattle.hist_log.specs.Numbers.{numbers, inner};
ghost use Rattle.hist_log.specs.PoolHistories.{IsPoolHistory};
ghost use Rattle.shfl_cell.specs.Cells.{number, AreAll, HasRunOf};
ghost use Rattle.shfl_table.specs.Books.{actions, HavePlaces};
ghost use Rattle.shfl_table.specs.Histories.{actions_by, HasSeen};
ghost use Rattle.call_pool.specs.Pools.{IsPassOf, calls_by};

use crate::pool::{PoolOf, PoolPass, PoolPassOf};
use call_queue::{CallQueue, Taker};
use hist_log::{Entry, Numbered, Object};
use shfl_cell::CellPassOf;
use shfl_table::{Book, Kept};

// What the others took goes to what this one took, and what they know of the cell behind those that are there.
fn unite_all<C: Copy, V: Kept + Drop>(
    queue: &CallQueue<C>,
    taker: &mut Taker<C>,
    cells: &mut Vec<CellPassOf<V>>,
    others: Vec<PoolPassOf<C, V>>,
)
    requires this { taker.old.queue ≡ queue.now.id }
    requires others { All (λ p. p.taker.queue ≡ queue.now.id) others.items }
    requires room { vec_len cells.old + vec_len others ≤ vec_capacity cells.old }
    ensures taker { taker.new ≡ record taker.old {
      parts = taker.old.parts + sum_by (λ p. p.taker.parts) others.items;
      taken = taker.old.taken ++ flat_map (λ p. p.taker.taken) others.items;
      ended = taker.old.ended || list_any (λ p. p.taker.ended) others.items;
    } }
    ensures cells { cells.new.items ≡ cells.old.items ++ map (λ p. p.cell) others.items }
{
    for pass in others {
        let PoolPassOf {
            taker: other,
            cell,
            room: _,
        } = pass;
        queue.unite(taker, other);
        cells.push_reserved(cell);
    }
}

impl<O: Object + Drop> PoolOf<O::Call, Book<Numbered<O>>> {
    /// Gives the object and its history back, for all passes of the pool, one of which has found that no call is left. Takes no
    /// memory.
    pub fn close(self, mut passes: Vec<PoolPass<O>>) -> (O, Vec<Entry<Numbered<O>>>)
        requires pool { All (IsPassOf O.call_numbers O.admits self) passes.items }
        requires all { AreAll self.cell.count (map (λ p. p.cell) passes.items) }
        requires count { vec_len passes ≡ self.cell.count }
        requires ended { Any (λ p. p.taker.ended ≡ true) passes.items }

        // Each call of the opening stands there once, with its place.
        ensures history { IsPoolHistory O.call_numbers O.reply_numbers O.reply_at O.state_after
            self.cell.opening self.queue.calls result.1.items }
        ensures state { O.state_numbers result.0
            ≡ state_left (λ state call. O.state_after state (inner call)) self.cell.opening
            (operations (numbers O.call_numbers) O.reply_numbers result.1.items) }

        // The calls of each worker's entries are just those that its pass took.
        ensures taken { All (λ p. calls_by (number p.cell) result.1.items ≡ p.taker.taken)
            passes.items }

        // The history begins with what each pass saw last, and has no more of its entries.
        ensures seen { All (λ p. HasSeen
            (actions (numbers O.call_numbers) O.reply_numbers result.1.items)
            (number p.cell) p.cell.seen) passes.items }
        ensures nobody_else { (k : ℕ) → self.cell.count ≤ k → actions_by k
            (actions (numbers O.call_numbers) O.reply_numbers result.1.items) ≡ [] }
        ensures places { HavePlaces result.1.items }

        // The lock ran from its opening until it was closed, and its holds made the history.
        ensures run { HasRunOf self.cell (map (λ p. p.cell) passes.items)
            (actions (numbers O.call_numbers) O.reply_numbers result.1.items) }
    {
        let PoolOf { queue, cell } = self;
        let PoolPassOf {
            mut taker,
            cell: first,
            room: mut cells,
        } = passes.remove(0);
        cells.push_reserved(first);
        unite_all(&queue, &mut taker, &mut cells, passes);
        queue.finish(taker);
        let (object, history) = cell.close(cells);
        (object.into_inner(), history)
    }
}
