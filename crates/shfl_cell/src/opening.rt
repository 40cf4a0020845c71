//! The cell's opening.
ghost use Rattle.std.specs.Prelude.{◌≡◌, ℕ, All, ◌<◌, ◌≤◌, length, map, sum, vec_len, slice_get, slice_index, slice_index_or, IfOk, Some};
ghost use Rattle.shfl_line.specs.Words.{attr_word};
ghost use Rattle.shfl_core.specs.Words.{most_passes};
ghost use Rattle.shfl_table.specs.PassModel.{fresh_pass};
ghost use Rattle.shfl_table.specs.Books.{allowed_of};
ghost use Rattle.shfl_cell.specs.Cells.{fresh, cell_on, no_attr, AreInOrder};

use crate::cell::{CellPass, CellPassOf, ShflCell, ShflCellOf};
use hist_log::Object;
use shfl_line::{Attr, Form, NoMemory};
use shfl_table::{Book, Pass, SharedBoard, open};
use std::alloc::Global;

// How many calls there may be in all.
fn sum_of(calls: &[u32]) -> usize
    requires { sum calls.now ≤ 65536 }
    ensures { result ≡ sum calls.now }
{
    calls.iter().map(|x| *x as usize).sum()
}

// The cell's pass of one of the board's.
fn cell_pass<O: Object + Drop>(
    board: &SharedBoard<Book<O>>,
    calls: &[u32],
    attrs: &[Attr],
    k: usize,
    pass: Pass<Book<O>>,
) -> CellPass<O>
    requires place { (k < length calls.now) × (length attrs.now ≡ length calls.now) }
    requires slots { board.now.id.table.slots ≡ 1 }
    requires calls { allowed_of board.now.initial_state ≡ calls.now }
    requires fresh { pass ≡ fresh_pass board.now.initial_state board.now.id k }
    ensures { result ≡ fresh (cell_on board.now) k
        (slice_index calls.now k) (slice_index_or attrs.now k no_attr) }
{
    CellPassOf {
        before: [0; 8],
        pass,
        left: calls[k],
        attr: attrs[k],
        after: [0; 8],
    }
}

// A pass of the cell for each of the board's.
fn cell_passes<O: Object + Drop>(
    alloc: Global,
    board: &SharedBoard<Book<O>>,
    calls: &[u32],
    attrs: &[Attr],
    passes: Vec<Pass<Book<O>>>,
) -> Result<Vec<CellPass<O>>, NoMemory>
    requires len { (vec_len passes ≡ length calls.now) × (length attrs.now ≡ length calls.now) }
    requires slots { board.now.id.table.slots ≡ 1 }
    requires calls { allowed_of board.now.initial_state ≡ calls.now }
    requires fresh { (i : ℕ) → i < vec_len passes
        → slice_get passes.items i ≡ Some (fresh_pass board.now.initial_state board.now.id i) }
    ensures count { IfOk result (λ v. vec_len v ≡ length calls.now) }
    ensures fresh { IfOk result (λ v. (i : ℕ) → i < vec_len v
        → slice_get v.items i ≡ Some (fresh (cell_on board.now) i
        (slice_index calls.now i) (slice_index_or attrs.now i no_attr))) }
{
    let mut all = Vec::with_capacity(alloc, calls.len())?;
    let mut k = 0;
    for pass in passes {
        all.push_reserved(cell_pass(board, calls, attrs, k, pass));
        k += 1;
    }
    Ok(all)
}

impl<O: Object + Drop> ShflCellOf<Book<O>> {
    /// An object behind a lock of a form, with a pass for each of the attributes. Pass k may make
    /// `calls[k]` calls; the room for all of them in the history is taken here. `limit` is the longest
    /// batch of a round.
    pub fn open(
        alloc: Global,
        object: O,
        attrs: &[Attr],
        form: Form,
        limit: u16,
        calls: &[u32],
    ) -> Result<(ShflCell<O>, Vec<CellPass<O>>), NoMemory>
        requires some { 0 < length calls.now }
        requires few { length calls.now ≤ most_passes }
        requires attrs { length attrs.now ≡ length calls.now }
        requires limited { (0 < limit) × (limit ≤ 1024) }
        requires calls { sum calls.now ≤ 65536 }
        requires spare { sum calls.now ≤ O.spare object }
        ensures cell { IfOk result (λ r. (r.0.count ≡ length calls.now)
            × (r.0.opening ≡ O.state_numbers object) × (r.0.allowed ≡ calls.now)) }
        ensures rules { IfOk result (λ r.
            r.0.id.rules ≡ record { limit = limit; form = form }) }
        ensures attrs { IfOk result (λ r. r.0.id.attrs ≡ map attr_word attrs.now) }
        ensures count { IfOk result (λ r. vec_len r.1 ≡ length calls.now) }
        ensures passes { IfOk result (λ r. (k : ℕ) → k < length calls.now
            → slice_get r.1.items k ≡ Some (fresh r.0 k
            (slice_index calls.now k) (slice_index_or attrs.now k no_attr))) }
        ensures own { IfOk result (λ r. All (λ p. p.cell ≡ r.0.id) r.1.items) }
        ensures in_order { IfOk result (λ r. AreInOrder r.1.items) }
    {
        let history = Vec::with_capacity(alloc, sum_of(calls))?;
        let mut values = Vec::with_capacity(alloc, 1)?;
        values.push_reserved(Book::new(object, Vec::from_slice(alloc, calls)?, history));
        let (board, passes) = open(alloc, attrs, form, limit, values)?;
        let passes = cell_passes(alloc, &board, calls, attrs, passes)?;
        Ok((ShflCellOf { board }, passes))
    }
}
