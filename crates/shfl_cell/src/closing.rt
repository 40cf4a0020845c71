//! The cell's closing.
ghost use Rattle.std.specs.Prelude.{◌≡◌, ℕ, ◌≤◌, true, All, [], map};
ghost use Rattle.hist_log.specs.History.{operations, IsLegal, state_left};
ghost use Rattle.shfl_core.specs.Plan as plan;
ghost use Rattle.shfl_table.specs.Histories.{actions_by, HasSeen};
ghost use Rattle.shfl_table.specs.PassModel.{as_given, as_part};
ghost use Rattle.shfl_table.specs.Books.{actions, HavePlaces};
ghost use Rattle.shfl_cell.specs.Cells.{given, part, number, AreAll, HasRunOf};

use crate::cell::{CellPass, CellPassOf, ShflCellOf};
use hist_log::{Entry, Object};
use shfl_table::{Book, Closing, Pass};

// The pass of the board.
fn board_pass<O: Object + Drop>(pass: CellPass<O>) -> Pass<Book<O>>
    ensures idle { plan.is_idle result.own.phase ≡ true }
    ensures board { result.board ≡ pass.cell }
    ensures given { as_given result ≡ given pass }
    ensures part { as_part result ≡ part pass }
{
    let CellPassOf {
        before: _,
        pass,
        left: _,
        attr: _,
        after: _,
    } = pass;
    pass
}

impl<O: Object + Drop> ShflCellOf<Book<O>> {
    /// Gives the object and its history back, for all passes of the cell. Takes no memory.
    pub fn close(self, mut passes: Vec<CellPass<O>>) -> (O, Vec<Entry<O>>)
        requires cell { All (λ p. p.cell ≡ self.id) passes.items }
        requires all { AreAll self.count passes.items }
        ensures legal { IsLegal O.reply_at O.state_after self.opening
            (operations O.call_numbers O.reply_numbers result.1.items) }
        ensures state { O.state_numbers result.0 ≡ state_left O.state_after self.opening
            (operations O.call_numbers O.reply_numbers result.1.items) }

        // The history begins with what each pass saw last, and has no more of its actions.
        ensures seen { All (λ p. HasSeen
            (actions O.call_numbers O.reply_numbers result.1.items) (number p) p.seen)
            passes.items }
        ensures nobody_else { (k : ℕ) → self.count ≤ k → actions_by k
            (actions O.call_numbers O.reply_numbers result.1.items) ≡ [] }
        ensures places { HavePlaces result.1.items }

        // All that was done to the lock is one list of changes, in which each pass did what it tells, and nobody else did anything.
        // The history is what the holds in it have made, in the order in which they ended: each call by its worker, while that one
        // held the lock.
        ensures run { HasRunOf self passes.items
            (actions O.call_numbers O.reply_numbers result.1.items) }
    {
        let ShflCellOf { board } = self;
        let Some(first) = passes.pop() else {
            unreachable!()
        };
        let mut closing = Closing::new(board, board_pass(first));
        while let Some(pass) = passes.pop() {
            closing.give(board_pass(pass));
        }
        let mut values = closing.finish();
        let Some(book) = values.pop() else {
            unreachable!()
        };
        book.into_parts()
    }
}
