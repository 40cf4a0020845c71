//! Cells with a register for each pass.
ghost use Rattle.std.specs.Prelude.{◌≡◌, ℕ, ◌≤◌, ◌<◌, true, All, length, sum, slice_index, slice_index_or, vec_len, IfOk};
ghost use Rattle.shfl_core.specs.Plan.{shares};
ghost use Rattle.rw_cell.specs.RwCells.{AreInOrder, IsPassOf};

use crate::register::Register;
use rw_cell::{RwCell, RwPass};
use shared_tests::PLAIN;
use shfl_line::{Attr, Form, NoMemory};
use std::alloc::Global;
use std::process::Abort;

/// Equal registers, one for each of so many passes.
pub fn registers(alloc: Global, count: usize, spare: u32) -> Result<Vec<Register>, NoMemory>
    ensures len { IfOk result (λ v. vec_len v ≡ count) }
    ensures alike { IfOk result (λ v. All (λ x. x ≡ record { value = 0; spare = spare }) v.items) }
{
    let mut all = Vec::with_capacity(alloc, count)?;
    for k in 0..count {
        let _ = k;
        all.push_reserved(Register { value: 0, spare });
    }
    Ok(all)
}

/// A cell with such a register for each pass.
pub fn open(
    alloc: Global,
    attrs: &[Attr],
    form: Form,
    calls: &[u32],
) -> Result<(RwCell<Register>, Vec<RwPass<Register>>), NoMemory>
    requires some { 0 < length calls.now }
    requires few { length calls.now ≤ 64 }
    requires attrs { length attrs.now ≡ length calls.now }
    requires form { shares form ≡ true }
    requires calls { sum calls.now ≤ 65536 }
    ensures count { IfOk result (λ r. (vec_len r.1 ≡ length calls.now)
        × (r.0.count ≡ length calls.now)) }
    ensures own { IfOk result (λ r. All (IsPassOf r.0) r.1.items) }
    ensures in_order { IfOk result (λ r. AreInOrder r.1.items) }
    ensures left { IfOk result (λ r. (k : ℕ) → (d : _) → k < length calls.now
        → (slice_index_or r.1.items k d).left ≡ slice_index calls.now k) }
{
    let copies = registers(alloc, calls.len(), 65536)?;
    let (cell, passes) = RwCell::<Register>::open(alloc, copies, attrs, form, 1024, calls)?;
    Ok((cell, passes))
}

/// A cell of two passes, with two calls each.
pub fn open_two(
    rt: &impl Abort,
    alloc: Global,
    form: Form,
) -> (RwCell<Register>, Vec<RwPass<Register>>)
    requires form { shares form ≡ true }
    ensures two { vec_len result.1 ≡ 2 }
    ensures cell { All (λ p. (p.cell ≡ result.0.id) × (1 < p.left)) result.1.items }
{
    let Ok((cell, passes)) = open(alloc, &[PLAIN, PLAIN], form, &[2, 2]) else {
        panic!(rt; "memory")
    };
    (cell, passes)
}
