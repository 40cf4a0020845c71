//! A lock on shared words, with all its passes.
ghost use Rattle.std.specs.Prelude.{◌≡◌, ◌<◌, ◌≤◌, length, IfOk};
ghost use Rattle.shfl_core.specs.Runner.{opened};
ghost use Rattle.shfl_core.specs.Worlds.{idle_from, known};
ghost use Rattle.shfl_line.specs.Line.{empty};
ghost use Rattle.shfl_laws.specs.Moves.{terms};
ghost use Rattle.shfl_world.specs.LawfulLock.{shown_by, terms_of};

use crate::last_read::LastRead;
use crate::rule::{Opening, StaysLawful, Whole};
use atomic_table::{Seat, Table};
use shfl_core::asks::idle_pass;
use shfl_core::{PassState, Rules, opening_words};
use shfl_line::{Attr, Form, NoMemory};
use std::alloc::Global;
use std::marker::Model;
use std::snapshot::Snapshot;

/// A lock whose words stand in a table that threads could share, with all its passes, 64 at most, and the table's only seat. Every
/// value of the type is lawful, whatever moves led to it.
#[derive(Drop)]
pub struct Solo {
    pub(crate) table: Table<(), Whole, Opening, StaysLawful, Global>,
    pub(crate) seat: Seat<(), Whole>,
    pub(crate) last: LastRead,
}

impl Model for Solo {
    ghost use Rattle.shfl_core.specs.Runner.{Lock};
    ghost use Rattle.shfl_solo.specs.Rule.{lock};
    ghost use Rattle.shfl_solo.specs.Kept.{IsSolo};

    ghost Value = { Lock };

    ghost view = { λ s. lock s.last.rules s.seat.me.0.words s.last.passes.items };

    ghost invariant = { λ s. IsSolo s.last.rules s.last.words.items s.last.passes.items
        s.table.shared.key s.table.shared.table_id s.seat.table_id s.seat.id s.seat.me };
}

// A pass for each of these attributes, idle.
fn idle_passes(alloc: Global, attrs: &[Attr]) -> Result<Vec<PassState>, NoMemory>
    requires few { length attrs.now ≤ 64 }
    ensures { IfOk result (λ r. r.items ≡ idle_from 0 attrs.now) }
{
    let mut passes = Vec::with_capacity(alloc, attrs.len())?;
    let mut number = 0;
    for _ in attrs {
        passes.push_reserved(idle_pass(number));
        number += 1;
    }
    Ok(passes)
}

impl Solo {
    /// A lock with a pass for each of these attributes, at its opening, of any form.
    pub fn open(alloc: Global, attrs: &[Attr], form: Form, limit: u16) -> Result<Solo, NoMemory>
        requires some { 0 < length attrs.now }
        requires few { length attrs.now ≤ 64 }
        requires limited { (0 < limit) × (limit ≤ 1024) }
        ensures opened { IfOk result
            (λ s. s ≡ opened (record { limit = limit; form = form }) attrs.now) }
        ensures shown { IfOk result (λ s. shown_by s ≡ empty (length attrs.now)) }
        ensures terms { IfOk result (λ s. terms_of s
            ≡ terms (record { limit = limit; form = form }) attrs.now) }
    {
        let words = opening_words(alloc, attrs)?;
        let passes = idle_passes(alloc, attrs)?;
        let rules = Rules { limit, form };
        let opening = Opening {
            rules,
            words: Snapshot::of(&words),
            passes: Snapshot::of(&passes),
        };
        let (table, seat) = Table::of_words(alloc, words.as_slice(), &opening)?;
        let last = LastRead {
            rules,
            words,
            passes,
        };
        Ok(Solo { table, seat, last })
    }

    /// How many passes there are.
    pub fn count(&self) -> usize
        ensures { result ≡ length self.now.world.passes }
    {
        self.last.passes.len()
    }

    /// Where the pass stands.
    pub fn standing(&self, pass: u32) -> PassState
        requires declared { pass < length self.now.world.passes }
        ensures { result ≡ known self.now.world.passes pass }
    {
        self.last.passes[pass as usize]
    }
}
