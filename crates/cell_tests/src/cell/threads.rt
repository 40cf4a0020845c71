//! Many passes in threads, in both forms and under each policy.
ghost use Rattle.std.specs.Prelude.{◌≡◌, ◌≤◌, ◌<◌, All, length, vec_len};
ghost use Rattle.shfl_cell.specs.Cells.{number, AreInOrder};

use crate::attrs::of_four_sockets;
use crate::checks::{holds, same};
use crate::register::{Mix, Register, call_of, is_whole};
use hist_log::Entry;
use shfl_cell::{CellPass, ShflCell};
use shfl_line::{Always, BySocket, Chooser, Form, Never};
use std::alloc::Global;
use std::process::Abort;
use std::sync::Wait;
use std::thread;
use std::thread::Threads;
use syn_outer::{Gate, OpenGate};

const CALLS: u32 = 50;

// Makes so many calls.
fn work<C: Chooser, G: Gate, Rt: Wait>(
    rt: &Rt,
    cell: &ShflCell<Register>,
    gate: &G,
    chooser: &mut C,
    calls: u32,
    pass: &mut CellPass<Register>,
)
    requires cell { pass.old.cell ≡ cell.now.id }
    ensures { (pass.new.cell ≡ pass.old.cell) × (number pass.new ≡ number pass.old) }
{
    let worker = pass.number();
    for before in 0..calls {
        if pass.left() == 0 {
            return;
        }
        let _ = cell.apply(
            rt,
            pass,
            chooser,
            gate,
            &call_of(Mix::Writes, worker, before),
        );
    }
}

// Each pass makes so many calls in a thread of its own.
fn work_all<C: Chooser + Copy + Sync, R: Threads + Wait + Sync>(
    rt: &R,
    cell: &ShflCell<Register>,
    chooser: &C,
    calls: u32,
    passes: &mut [CellPass<Register>],
)
    requires some { 0 < length passes.old }
    requires cell { All (λ p. p.cell ≡ cell.now.id) passes.old }
    requires in_order { AreInOrder passes.old }
    ensures cell { All (λ p. p.cell ≡ cell.now.id) passes.new }
    ensures in_order { AreInOrder passes.new }
{
    let threads = passes.len();
    let job = |_place: usize, pass: &mut CellPass<Register>|
        requires { pass.now.cell ≡ cell.now.id }
        ensures { (pass.exit.now.cell ≡ pass.entry.now.cell)
            × (number pass.exit.now ≡ number pass.entry.now) }
    {
        let mut own = *chooser;
        work(rt, cell, &OpenGate, &mut own, calls, pass);
    };
    thread::for_each_mut(rt, passes, threads, &job);
}

// Closes a cell whose passes stand in order.
fn close_in_order(
    cell: ShflCell<Register>,
    passes: Vec<CellPass<Register>>,
) -> (Register, Vec<Entry<Register>>)
    requires cell { All (λ p. p.cell ≡ cell.id) passes.items }
    requires all { vec_len passes ≡ cell.count }
    requires in_order { AreInOrder passes.items }
{
    cell.close(passes)
}

// The history is legal and has all calls in order, and the register has the last one.
fn is_one_history(rt: &impl Abort, register: &Register, entries: &[Entry<Register>]) {
    let last = entries.last().map_or(0, |entry| entry.call);
    same(rt, &register.value, &last);
    holds(rt, is_whole(entries, Mix::Writes, 16, CALLS));
}

// The history of sixteen passes of four sockets that call in threads is such a one.
fn runs<C: Chooser + Copy + Sync, R: Abort + Threads + Wait + Sync>(
    rt: &R,
    alloc: Global,
    form: Form,
    chooser: C,
) {
    let register = Register {
        value: 0,
        spare: 16 * CALLS,
    };
    let attrs = of_four_sockets();
    let Ok((cell, mut passes)) = ShflCell::<Register>::open(
        alloc,
        register,
        &attrs,
        form,
        1024,
        &[CALLS; 16],
    ) else {
        panic!(rt; "memory")
    };
    work_all(rt, &cell, &chooser, CALLS, &mut passes);
    let (register, entries) = close_in_order(cell, passes);
    is_one_history(rt, &register, &entries);
}

#[test]
fn spinning_passes_have_one_legal_history(rt: HostRuntime) {
    runs(&rt, rt.alloc(), Form::Spin, Never);
    runs(&rt, rt.alloc(), Form::Spin, Always);
    runs(&rt, rt.alloc(), Form::Spin, BySocket);
}

#[test]
fn parking_passes_have_one_legal_history(rt: HostRuntime) {
    runs(&rt, rt.alloc(), Form::Park, Never);
    runs(&rt, rt.alloc(), Form::Park, Always);
    runs(&rt, rt.alloc(), Form::Park, BySocket);
}
