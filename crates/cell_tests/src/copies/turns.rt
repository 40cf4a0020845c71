//! Two passes that call in turn, on one thread.
ghost use Rattle.std.specs.Prelude.{◌≡◌, ◌<◌, All, length};

use super::opening::open_two;
use crate::checks::same;
use crate::register::{LOOK, Register};
use rw_cell::{RwCell, RwPass};
use shfl_line::{Form, Never};
use std::sync::Wait;
use syn_outer::OpenGate;

// The first pass writes and the second reads: what each was answered, and at which place.
fn write_and_read<Rt: Wait>(
    rt: &Rt,
    cell: &RwCell<Register>,
    passes: &mut [RwPass<Register>],
) -> [(u32, u64); 2]
    requires two { length passes.old ≡ 2 }
    requires cell { All (λ p. (p.cell ≡ cell.now.id) × (1 < p.left)) passes.old }
{
    let (before, wrote) = cell.write(rt, &mut passes[0], &mut Never, &OpenGate, &7);
    let (value, read) = cell.read(rt, &mut passes[1], &mut Never, &OpenGate, &LOOK);
    [(before, wrote.place), (value, read.place)]
}

// The same by tries.
fn try_both(cell: &RwCell<Register>, passes: &mut [RwPass<Register>]) -> Option<[(u32, u64); 2]>
    requires two { length passes.old ≡ 2 }
    requires cell { All (λ p. (p.cell ≡ cell.now.id) × (1 < p.left)) passes.old }
{
    let Ok((before, wrote)) = cell.try_write(&mut passes[0], &7) else {
        return None;
    };
    let Ok((value, read)) = cell.try_read(&mut passes[1], &LOOK) else {
        return None;
    };
    Some([(before, wrote.place), (value, read.place)])
}

#[test]
fn a_read_sees_the_write_of_another_pass(rt: HostRuntime) {
    let (cell, mut passes) = open_two(&rt, rt.alloc(), Form::RwPark);
    let told = write_and_read(&rt, &cell, &mut passes);
    same(&rt, &told, &[(0, 0), (7, 1)]);
}

#[test]
fn tries_at_a_free_lock_succeed(rt: HostRuntime) {
    let (cell, mut passes) = open_two(&rt, rt.alloc(), Form::Rw);
    same(&rt, &try_both(&cell, &mut passes), &Some([(0, 0), (7, 1)]));
    same(&rt, &passes[0].left(), &1);
}
