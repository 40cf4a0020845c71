//! The cell's closing.
ghost use Rattle.std.specs.Prelude.{◌≡◌, ℕ, ◌<◌, ◌≤◌, true, All, List, [], map, vec_len, vec_capacity};
ghost use Rattle.hist_log.specs.History.{operations, IsLegal, state_left};
ghost use Rattle.shfl_core.specs.Plan as plan;
ghost use Rattle.shfl_table.specs.Places.{Every};
ghost use Rattle.shfl_table.specs.PassModel.{as_given, as_part};
ghost use Rattle.shfl_table.specs.declared.kept.Action.{Action};
ghost use Rattle.shfl_table.specs.Books.{action, actions, pack, opening_of, operations_of, HavePlaces};
ghost use Rattle.rw_cell.specs.KeptReads.{KeepsReads, answers_as};
ghost use Rattle.rw_cell.specs.RwCells.{given, number, IsPassOf, AreAll};
ghost use Rattle.rw_cell.specs.Closings.{GivesWrites, GivesReads, part, HasRunOf};

use crate::cell::{RwCellOf, RwPass, RwPassOf};
use hist_log::{Entry, Object};
use shfl_table::{Book, Closing, Pass};

// The pass of the board, its number and its reads.
fn parted<O: Object + Drop>(pass: RwPass<O>) -> (Pass<Book<O>>, usize, Vec<Entry<O>>)
    ensures idle { plan.is_idle result.0.own.phase ≡ true }
    ensures board { result.0.board ≡ pass.cell }
    ensures given { as_given result.0 ≡ given pass }
    ensures part { as_part result.0 ≡ part pass }
    ensures number { (result.1 ≡ number pass) × (number pass < pass.cell.table.slots) }
    ensures reads { result.2.items ≡ pass.reads }
    ensures keeps { KeepsReads (action O.call_numbers O.reply_numbers) (λ e. e.receipt)
        (answers_as O.call_numbers O.reply_numbers O.reads O.reply_at O.state_after)
        pass.opening (number pass) pass.seen pass.reads }
{
    let RwPassOf {
        before: _,
        pass,
        left: _,
        attr: _,
        reads,
        after: _,
    } = pass;
    let number = pass.number() as usize;
    (pass, number, reads)
}

// The objects of the books, and the entries of one of them.
fn parts_of<O: Object + Drop>(
    mut books: Vec<Book<O>>,
    mut copies: Vec<O>,
) -> (Vec<O>, Vec<Entry<O>>)
    requires some { 0 < vec_len books }
    requires room { (copies.items ≡ []) × (vec_len books ≤ vec_capacity copies) }
    ensures len { vec_len result.0 ≡ vec_len books }
    ensures places { HavePlaces result.1.items }
    ensures parts { (packed : List ℕ) → (total : List Action)
        → Every (λ b. (pack b.opening b.allowed ≡ packed) × (b.history ≡ total)) books.items
        → (actions O.call_numbers O.reply_numbers result.1.items ≡ total)
        × IsLegal O.reply_at O.state_after (opening_of packed)
        (operations O.call_numbers O.reply_numbers result.1.items)
        × All (λ o. O.state_numbers o
        ≡ state_left O.state_after (opening_of packed) (operations_of total)) result.0.items }
{
    let Some(last) = books.pop() else {
        unreachable!()
    };
    let (object, writes) = last.into_parts();
    copies.push_reserved(object);
    while let Some(book) = books.pop() {
        let (object, _) = book.into_parts();
        copies.push_reserved(object);
    }
    (copies, writes)
}

impl<O: Object + Drop> RwCellOf<Book<O>, Entry<O>, O> {
    /// Gives the copies back, the list of the writes, and for each pass, by its number, the list of
    /// its reads, for all passes of the cell. Takes no memory.
    pub fn close(self, mut passes: Vec<RwPass<O>>) -> (Vec<O>, Vec<Entry<O>>, Vec<Vec<Entry<O>>>)
        requires cell { All (IsPassOf self) passes.items }
        requires all { AreAll self.count passes.items }

        // Each copy is what the writes leave.
        ensures copies { (vec_len result.0 ≡ self.count)
            × All (λ o. O.state_numbers o ≡ state_left O.state_after self.opening
            (operations O.call_numbers O.reply_numbers result.1.items)) result.0.items }
        ensures writes { GivesWrites O.call_numbers O.reply_numbers O.reply_at O.state_after
            self passes.items result.1.items }
        ensures reads { GivesReads O.call_numbers O.reply_numbers O.reads O.reply_at O.state_after
            self passes.items result.1.items (map (λ v. v.items) result.2.items) }

        // All that was done to the lock is one list of changes, in which each pass did what it tells, and nobody else did anything.
        // The writes are what the holds in it have made, in the order in which they ended: each by its worker, while that one held the
        // lock as a writer.
        ensures run { HasRunOf self passes.items
            (actions O.call_numbers O.reply_numbers result.1.items) }
    {
        let RwCellOf {
            board,
            places: _,
            copies,
            mut lists,
        } = self;
        let Some(first) = passes.pop() else {
            unreachable!()
        };
        let (pass, number, reads) = parted(first);
        lists[number] = reads;
        let mut closing = Closing::new(board, pass);
        while let Some(next) = passes.pop() {
            let (pass, number, reads) = parted(next);
            lists[number] = reads;
            closing.give(pass);
        }
        let (copies, writes) = parts_of(closing.finish(), copies);
        (copies, writes, lists)
    }
}
