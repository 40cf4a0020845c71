//! The cell's opening.
ghost use Rattle.std.specs.Prelude.{◌≡◌, ℕ, ◌<◌, ◌≤◌, true, All, [], length, map, sum, vec_len, slice_get, slice_index, slice_index_or, vec_capacity, IfOk, Some};
ghost use Rattle.shfl_core.specs.Plan.{shares};
ghost use Rattle.shfl_core.specs.Words.{most_passes};
ghost use Rattle.shfl_line.specs.Words.{attr_word};
ghost use Rattle.shfl_table.specs.PassModel.{fresh_pass};
ghost use Rattle.shfl_table.specs.Places.{Every};
ghost use Rattle.shfl_table.specs.Books.{pack, allowed_of};
ghost use Rattle.rw_cell.specs.RwCells.{fresh, cell_on, first_state, no_attr, IsPassOf, AreInOrder};

use crate::cell::{RwCell, RwCellOf, RwPass, RwPassOf};
use hist_log::{Entry, Object};
use shfl_line::{Attr, Form, NoMemory};
use shfl_table::{Book, Pass, SharedBoard, open};
use std::alloc::Global;

// How many calls there may be in all.
fn sum_of(calls: &[u32]) -> usize
    requires { sum calls.now ≤ 65536 }
    ensures { result ≡ sum calls.now }
{
    calls.iter().map(|x| *x as usize).sum()
}

// Each copy with its list of the writes, which has room for all calls.
fn books_of<O: Object + Drop>(
    alloc: Global,
    mut copies: Vec<O>,
    calls: &[u32],
) -> Result<Vec<Book<O>>, NoMemory>
    requires few { sum calls.now ≤ 65536 }
    requires alike { All (λ x. O.state_numbers x ≡ first_state O.state_numbers copies.items)
        copies.items }
    requires spare { All (λ x. sum calls.now ≤ O.spare x) copies.items }
    ensures len { IfOk result (λ v. vec_len v ≡ vec_len copies) }
    ensures untouched { IfOk result (λ v. Every (λ b. (pack b.opening b.allowed
        ≡ pack (first_state O.state_numbers copies.items) calls.now) × (b.history ≡ [])) v.items) }
{
    let room = sum_of(calls);
    let mut books = Vec::with_capacity(alloc, copies.len())?;
    while let Some(object) = copies.pop() {
        let history = Vec::with_capacity(alloc, room)?;
        let allowed = Vec::from_slice(alloc, calls)?;
        books.push_reserved(Book::new(object, allowed, history));
    }
    Ok(books)
}

// An empty list for each pass.
fn empty_lists<E: Drop>(alloc: Global, count: usize) -> Result<Vec<Vec<E>>, NoMemory>
    ensures { IfOk result (λ v. vec_len v ≡ count) }
{
    let mut lists = Vec::with_capacity(alloc, count)?;
    for k in 0..count {
        let _ = k;
        lists.push_reserved(Vec::new(alloc));
    }
    Ok(lists)
}

// The cell's pass of one of the board's, with the room for its reads.
fn cell_pass<O: Object + Drop>(
    board: &SharedBoard<Book<O>>,
    calls: &[u32],
    attrs: &[Attr],
    k: usize,
    pass: Pass<Book<O>>,
    reads: Vec<Entry<O>>,
) -> RwPass<O>
    requires place { (k < length calls.now) × (length attrs.now ≡ length calls.now) }
    requires slots { board.now.id.table.slots ≡ length calls.now }
    requires calls { allowed_of board.now.initial_state ≡ calls.now }
    requires fresh { pass ≡ fresh_pass board.now.initial_state board.now.id k }
    requires reads { (reads.items ≡ []) × (slice_index calls.now k ≤ vec_capacity reads) }
    ensures { result ≡ fresh (cell_on board.now) k
        (slice_index calls.now k) (slice_index_or attrs.now k no_attr) }
{
    RwPassOf {
        before: [0; 8],
        pass,
        left: calls[k],
        attr: attrs[k],
        reads,
        after: [0; 8],
    }
}

// A pass of the cell for each of the board's.
fn cell_passes<O: Object + Drop>(
    alloc: Global,
    board: &SharedBoard<Book<O>>,
    calls: &[u32],
    attrs: &[Attr],
    passes: Vec<Pass<Book<O>>>,
) -> Result<Vec<RwPass<O>>, NoMemory>
    requires len { (vec_len passes ≡ length calls.now) × (length attrs.now ≡ length calls.now) }
    requires slots { board.now.id.table.slots ≡ length calls.now }
    requires calls { allowed_of board.now.initial_state ≡ calls.now }
    requires fresh { (i : ℕ) → i < vec_len passes
        → slice_get passes.items i ≡ Some (fresh_pass board.now.initial_state board.now.id i) }
    ensures count { IfOk result (λ v. vec_len v ≡ length calls.now) }
    ensures fresh { IfOk result (λ v. (i : ℕ) → i < vec_len v
        → slice_get v.items i ≡ Some (fresh (cell_on board.now) i
        (slice_index calls.now i) (slice_index_or attrs.now i no_attr))) }
{
    let mut all = Vec::with_capacity(alloc, calls.len())?;
    let mut k = 0;
    for pass in passes {
        let reads = Vec::with_capacity(alloc, calls[k] as usize)?;
        all.push_reserved(cell_pass(board, calls, attrs, k, pass, reads));
        k += 1;
    }
    Ok(all)
}

impl<O: Object + Drop> RwCellOf<Book<O>, Entry<O>, O> {
    /// A cell with a copy for each pass, behind a lock of a form that readers share. There is a pass
    /// for each of the attributes. Pass k may make `calls[k]` calls; the room for all writes beside
    /// each copy, for each pass's reads and for the closing is taken here. `limit` is the longest
    /// batch of a round.
    pub fn open(
        alloc: Global,
        copies: Vec<O>,
        attrs: &[Attr],
        form: Form,
        limit: u16,
        calls: &[u32],
    ) -> Result<(RwCell<O>, Vec<RwPass<O>>), NoMemory>
        requires some { 0 < length calls.now }
        requires few { length calls.now ≤ most_passes }
        requires attrs { length attrs.now ≡ length calls.now }
        requires copies { vec_len copies ≡ length calls.now }
        requires form { shares form ≡ true }
        requires limited { (0 < limit) × (limit ≤ 1024) }
        requires calls { sum calls.now ≤ 65536 }
        requires alike { All (λ x. O.state_numbers x ≡ first_state O.state_numbers copies.items)
            copies.items }
        requires spare { All (λ x. sum calls.now ≤ O.spare x) copies.items }
        ensures cell { IfOk result (λ r. (r.0.count ≡ length calls.now)
            × (r.0.opening ≡ first_state O.state_numbers copies.items)
            × (r.0.allowed ≡ calls.now)) }
        ensures rules { IfOk result (λ r.
            r.0.id.rules ≡ record { limit = limit; form = form }) }
        ensures attrs { IfOk result (λ r. r.0.id.attrs ≡ map attr_word attrs.now) }
        ensures count { IfOk result (λ r. vec_len r.1 ≡ length calls.now) }
        ensures passes { IfOk result (λ r. (k : ℕ) → k < vec_len r.1
            → slice_get r.1.items k ≡ Some (fresh r.0 k
            (slice_index calls.now k) (slice_index_or attrs.now k no_attr))) }
        ensures own { IfOk result (λ r. All (IsPassOf r.0) r.1.items) }
        ensures in_order { IfOk result (λ r. AreInOrder r.1.items) }
    {
        let books = books_of(alloc, copies, calls)?;
        let copies = Vec::with_capacity(alloc, calls.len())?;
        let lists = empty_lists(alloc, calls.len())?;
        let (board, passes) = open(alloc, attrs, form, limit, books)?;
        let passes = cell_passes(alloc, &board, calls, attrs, passes)?;
        let cell = RwCellOf {
            board,
            places: calls.len() as u32,
            copies,
            lists,
        };
        Ok((cell, passes))
    }
}
