//! The cell and its passes.
ghost use Rattle.std.specs.Prelude.{◌≡◌};

use hist_log::{Entry, Object};
use shfl_line::Attr;
use shfl_table::{Book, Kept, Pass, SharedBoard};
use std::marker::Model;

/// What a pass keeps of a read.
pub trait KeptRead {
    ghost use Rattle.std.specs.Prelude.{ℕ, List};
    ghost use Rattle.shfl_table.specs.declared.kept.Action.{Action};

    /// Who read, what it was, and what it was answered.
    ghost action: { Self → Action };

    /// The number of writes before it.
    ghost point: { Self → ℕ };

    /// `fits opening writes e`: it is a read, answered as after these writes from the opening on.
    ghost fits: { List ℕ → List Action → Self → Type 0 };
}

impl<O: Object> KeptRead for Entry<O> {
    ghost use Rattle.shfl_table.specs.Books.{action as entry_action};
    ghost use Rattle.rw_cell.specs.KeptReads.{answers_as};

    ghost action = { entry_action O.call_numbers O.reply_numbers };

    ghost point = { λ e. e.receipt };

    ghost fits = { answers_as O.call_numbers O.reply_numbers O.reads O.reply_at O.state_after };
}

/// Values behind the lock, with the room for what is given back at the closing. It is generic in the
/// value, since a struct over `O` that holds a board of books is not shown to cross threads.
#[derive(Drop)]
pub struct RwCellOf<V: Kept + Drop, E: Drop, C: Drop> {
    pub(crate) board: SharedBoard<V>,
    pub(crate) places: u32,
    pub(crate) copies: Vec<C>,
    pub(crate) lists: Vec<Vec<E>>,
}

/// A copy of an object for each pass, behind a lock that threads share.
pub type RwCell<O> = RwCellOf<Book<O>, Entry<O>, O>;

impl<V: Kept + Drop, E: Drop, C: Drop> Model for RwCellOf<V, E, C> {
    ghost use Rattle.std.specs.Prelude.{◌≡◌, ◌<◌, ◌≤◌, [], true, vec_len, vec_capacity};
    ghost use Rattle.shfl_core.specs.Plan.{shares};
    ghost use Rattle.rw_cell.specs.RwCells.{RwCellModel, cell_on};

    ghost Value = { RwCellModel };

    ghost view = { λ c. cell_on c.board };

    ghost invariant = { λ c. (c.places ≡ c.board.id.table.slots)
        × (c.board.id.table.slots ≡ c.board.count) × (0 < c.board.count)
        × (shares c.board.id.rules.form ≡ true)
        × (c.copies.items ≡ []) × (c.board.count ≤ vec_capacity c.copies)
        × (vec_len c.lists ≡ c.board.count) };
}

/// A caller's right to make so many calls, with the reads that it made. There are unused bytes on each side, so that passes of different
/// threads that lie side by side share no cache line.
#[derive(Drop)]
#[repr(C)]
pub struct RwPassOf<V: Kept + Drop, E: KeptRead + Drop> {
    pub(crate) before: [u64; 8],
    pub(crate) pass: Pass<V>,
    pub(crate) left: u32,
    pub(crate) attr: Attr,
    pub(crate) reads: Vec<E>,
    pub(crate) after: [u64; 8],
}

/// A caller's right to make so many calls of an object that has a copy for each pass.
pub type RwPass<O> = RwPassOf<Book<O>, Entry<O>>;

impl<V: Kept + Drop, E: KeptRead + Drop> Model for RwPassOf<V, E> {
    ghost use Rattle.std.specs.Prelude.{vec_capacity};
    ghost use Rattle.shfl_table.specs.Books.{opening_of};
    ghost use Rattle.rw_cell.specs.RwCells.{RwPassModel, RwPassInvariant};

    ghost Value = { RwPassModel E };

    ghost view = { λ p. record {
      cell = p.pass.board;
      reg = p.pass.own.reg;
      steps_taken = p.pass.steps_taken;
      found = p.pass.found;
      decisions = p.pass.decisions;
      attempts = p.pass.attempts;
      opening = opening_of p.pass.initial_state;
      seen = p.pass.history;
      reads = p.reads.items;
      left = p.left;
      attr = p.attr;
    } };

    ghost invariant = { λ p. RwPassInvariant E.action E.point E.fits p.pass p.left
        p.reads.items (vec_capacity p.reads) };
}

impl<V: Kept + Drop, E: KeptRead + Drop> RwPassOf<V, E> {
    /// The pass's number, from 0.
    pub fn number(&self) -> u32
        ensures { result ≡ self.now.reg.me }
    {
        self.pass.number()
    }

    /// How many calls it may still make.
    pub fn left(&self) -> u32
        ensures { result ≡ self.now.left }
    {
        self.left
    }
}
