//! Many passes in threads, in both forms and under each policy.
ghost use Rattle.std.specs.Prelude.{◌≡◌, ◌<◌, true, All, length, vec_len};
ghost use Rattle.shfl_core.specs.Plan.{shares};
ghost use Rattle.rw_cell.specs.RwCells.{number, AreInOrder, IsPassOf, StaysPass};

use super::opening::open;
use crate::attrs::of_four_sockets;
use crate::checks::{holds, same};
use crate::register::{LOOK, Mix, Register, call_of, is_whole};
use hist_log::{Entry, merge};
use rw_cell::{RwCell, RwPass};
use shfl_line::{Always, BySocket, Chooser, Form, Never, NoMemory};
use std::alloc::Global;
use std::process::Abort;
use std::sync::Wait;
use std::thread;
use std::thread::Threads;
use syn_outer::OpenGate;

const CALLS: u32 = 50;

// Makes one call.
fn call_once<C: Chooser, Rt: Wait>(
    rt: &Rt,
    cell: &RwCell<Register>,
    chooser: &mut C,
    call: u32,
    pass: &mut RwPass<Register>,
)
    requires cell { pass.old.cell ≡ cell.now.id }
    requires left { 0 < pass.old.left }
    ensures { StaysPass pass.old pass.new }
{
    if call == LOOK {
        let _ = cell.read(rt, pass, chooser, &OpenGate, &call);
        return;
    }
    let _ = cell.write(rt, pass, chooser, &OpenGate, &call);
}

// Makes so many calls.
fn work<C: Chooser, Rt: Wait>(
    rt: &Rt,
    cell: &RwCell<Register>,
    chooser: &mut C,
    calls: u32,
    pass: &mut RwPass<Register>,
)
    requires cell { pass.old.cell ≡ cell.now.id }
    ensures { (pass.new.cell ≡ pass.old.cell) × (pass.new.opening ≡ pass.old.opening)
        × (number pass.new ≡ number pass.old) }
{
    let worker = pass.number();
    for before in 0..calls {
        if pass.left() == 0 {
            return;
        }
        call_once(rt, cell, chooser, call_of(Mix::Looks, worker, before), pass);
    }
}

// Each pass makes so many calls in a thread of its own.
fn work_all<C: Chooser + Copy + Sync, R: Threads + Wait + Sync>(
    rt: &R,
    cell: &RwCell<Register>,
    chooser: &C,
    calls: u32,
    passes: &mut [RwPass<Register>],
)
    requires some { 0 < length passes.old }
    requires cell { All (IsPassOf cell.now) passes.old }
    requires in_order { AreInOrder passes.old }
    ensures cell { All (IsPassOf cell.now) passes.new }
    ensures in_order { AreInOrder passes.new }
{
    let threads = passes.len();
    let job = |_place: usize, pass: &mut RwPass<Register>|
        requires { pass.now.cell ≡ cell.now.id }
        ensures { (pass.exit.now.cell ≡ pass.entry.now.cell)
            × (pass.exit.now.opening ≡ pass.entry.now.opening)
            × (number pass.exit.now ≡ number pass.entry.now) }
    {
        let mut own = *chooser;
        work(rt, cell, &mut own, calls, pass);
    };
    thread::for_each_mut(rt, passes, threads, &job);
}

// Closes a cell whose passes stand in order: the copies, the write that came last, and all calls.
fn close_in_order(
    alloc: Global,
    cell: RwCell<Register>,
    passes: Vec<RwPass<Register>>,
) -> Result<(Vec<Register>, u32, Vec<Entry<Register>>), NoMemory>
    requires cell { All (IsPassOf cell) passes.items }
    requires all { vec_len passes ≡ cell.count }
    requires in_order { AreInOrder passes.items }
{
    let (copies, writes, reads) = cell.close(passes);
    let last = writes.last().map_or(0, |entry| entry.call);
    let Ok(entries) = merge(alloc, &writes, &reads) else {
        return Err(NoMemory);
    };
    Ok((copies, last, entries))
}

// The merged history is legal and has all calls in order, and each copy has the number that was put last.
fn is_one_history(rt: &impl Abort, copies: &[Register], last: u32, entries: &[Entry<Register>]) {
    for copy in copies {
        same(rt, &copy.value, &last);
    }
    holds(rt, is_whole(entries, Mix::Looks, 16, CALLS));
}

// That of sixteen passes that call in threads is such a one.
fn runs<C: Chooser + Copy + Sync, R: Abort + Threads + Wait + Sync>(
    rt: &R,
    alloc: Global,
    form: Form,
    chooser: C,
)
    requires { shares form ≡ true }
{
    let Ok((cell, mut passes)) = open(alloc, &of_four_sockets(), form, &[CALLS; 16]) else {
        panic!(rt; "memory")
    };
    work_all(rt, &cell, &chooser, CALLS, &mut passes);
    let Ok((copies, last, entries)) = close_in_order(alloc, cell, passes) else {
        panic!(rt; "memory")
    };
    is_one_history(rt, &copies, last, &entries);
}

#[test]
fn spinning_passes_have_one_legal_history(rt: HostRuntime) {
    runs(&rt, rt.alloc(), Form::Rw, Never);
    runs(&rt, rt.alloc(), Form::Rw, Always);
    runs(&rt, rt.alloc(), Form::Rw, BySocket);
}

#[test]
fn parking_passes_have_one_legal_history(rt: HostRuntime) {
    runs(&rt, rt.alloc(), Form::RwPark, Never);
    runs(&rt, rt.alloc(), Form::RwPark, Always);
    runs(&rt, rt.alloc(), Form::RwPark, BySocket);
}
