//! The cell and its passes.
ghost use Rattle.std.specs.Prelude.{◌≡◌};

use shfl_line::Attr;
use shfl_table::{Book, Kept, Pass, SharedBoard};
use std::marker::Model;

/// A value behind the lock. It is generic in the value, since a struct over `O` that holds a board of
/// books is not shown to cross threads.
#[derive(Drop)]
pub struct ShflCellOf<V: Kept + Drop> {
    pub(crate) board: SharedBoard<V>,
}

/// An object behind the lock, which threads share.
pub type ShflCell<O> = ShflCellOf<Book<O>>;

impl<V: Kept + Drop> Model for ShflCellOf<V> {
    ghost use Rattle.std.specs.Prelude.{◌≡◌, ◌<◌};
    ghost use Rattle.shfl_cell.specs.Cells.{CellModel, cell_on};

    ghost Value = { CellModel };

    ghost view = { λ c. cell_on c.board };

    ghost invariant = { λ c. (c.board.id.table.slots ≡ 1) × (0 < c.board.count) };
}

/// A caller's right to make so many calls. There are unused bytes on each side, so that passes of different threads that lie side by
/// side share no cache line.
#[derive(Drop)]
#[repr(C)]
pub struct CellPassOf<V: Kept + Drop> {
    pub(crate) before: [u64; 8],
    pub(crate) pass: Pass<V>,
    pub(crate) left: u32,
    pub(crate) attr: Attr,
    pub(crate) after: [u64; 8],
}

/// A caller's right to make so many calls of an object behind the lock.
pub type CellPass<O> = CellPassOf<Book<O>>;

impl<V: Kept + Drop> Model for CellPassOf<V> {
    ghost use Rattle.std.specs.Prelude.{◌≡◌, ◌+◌, length, slice_index, true, []};
    ghost use Rattle.shfl_core.specs.Plan.{is_idle};
    ghost use Rattle.shfl_table.specs.Histories.{actions_by};
    ghost use Rattle.shfl_table.specs.Books.{opening_of, allowed_of};
    ghost use Rattle.shfl_cell.specs.Cells.{CellPassModel};

    ghost Value = { CellPassModel };

    ghost view = { λ p. record {
      cell = p.pass.board;
      reg = p.pass.own.reg;
      steps_taken = p.pass.steps_taken;
      found = p.pass.found;
      decisions = p.pass.decisions;
      attempts = p.pass.attempts;
      opening = opening_of p.pass.initial_state;
      seen = p.pass.history;
      left = p.left;
      attr = p.attr;
    } };

    ghost invariant = { λ p. (is_idle p.pass.own.phase ≡ true) × (p.pass.values ≡ [])
        × (p.pass.board.table.slots ≡ 1)
        × (length (actions_by p.pass.own.reg.me p.pass.history) + p.left
        ≡ slice_index (allowed_of p.pass.initial_state) p.pass.own.reg.me) };
}

impl<V: Kept + Drop> CellPassOf<V> {
    /// The pass's number, from 0.
    pub fn number(&self) -> u32
        ensures { result ≡ self.now.reg.me }
    {
        self.pass.number()
    }

    /// How many calls it may still make.
    pub fn left(&self) -> u32
        ensures { result ≡ self.now.left }
    {
        self.left
    }
}
