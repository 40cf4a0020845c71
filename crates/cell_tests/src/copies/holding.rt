//! A writer that holds the lock while another pass tries.
ghost use Rattle.std.specs.Prelude.{◌≡◌, ◌<◌, All};

use super::opening::open_two;
use crate::checks::same;
use crate::register::{LOOK, Register};
use rw_cell::{RwCell, RwPass};
use shared_tests::Mark;
use shfl_line::{Form, Never};
use std::alloc::Global;
use std::process::Abort;
use std::sync::Wait;
use std::sync::atomic::{AtomicU64, Ordering};
use std::thread;
use std::thread::Threads;
use syn_outer::{Gate, Point};

/// Pass 0 holds the lock from the first mark on, until pass 1 has tried or joined the queue.
#[derive(Drop)]
struct Trial {
    held: Mark,
    tried: Mark,
    late: Mark,
    read_word: AtomicU64,
    write_word: AtomicU64,
}

impl Trial {
    fn new() -> Trial {
        Trial {
            held: Mark::new(),
            tried: Mark::new(),
            late: Mark::new(),
            read_word: AtomicU64::new(0),
            write_word: AtomicU64::new(0),
        }
    }
}

impl Gate for Trial {
    fn at<Rt: Wait>(&self, _rt: &Rt, worker: u32, point: Point) {
        match (worker, point) {
            (0, Point::Holding) => {
                self.held.set();
                self.tried.wait(1, &self.late);
            }
            (1, Point::Queued) => self.tried.set(),
            _ => {}
        }
    }
}

// Pass 0 writes; pass 1 tries both calls meanwhile.
fn overlap<Rt: Wait>(rt: &Rt, cell: &RwCell<Register>, trial: &Trial, pass: &mut RwPass<Register>)
    requires cell { pass.old.cell ≡ cell.now.id }
    requires left { 1 < pass.old.left }
{
    if pass.number() == 0 {
        let _ = cell.write(rt, pass, &mut Never, trial, &7);
        return;
    }
    trial.held.wait(1, &trial.late);
    if let Err(busy) = cell.try_read(pass, &LOOK) {
        trial.read_word.store(busy.word, Ordering::SeqCst);
        if let Err(busy) = cell.try_write(pass, &8) {
            trial.write_word.store(busy.word, Ordering::SeqCst);
        }
    }
    trial.tried.set();
}

// Pass 0 writes; pass 1 reads what it wrote, and keeps it.
fn wait_behind<Rt: Wait>(
    rt: &Rt,
    cell: &RwCell<Register>,
    trial: &Trial,
    pass: &mut RwPass<Register>,
)
    requires cell { pass.old.cell ≡ cell.now.id }
    requires left { 1 < pass.old.left }
{
    if pass.number() == 0 {
        let _ = cell.write(rt, pass, &mut Never, trial, &7);
        return;
    }
    trial.held.wait(1, &trial.late);
    let (value, _) = cell.read(rt, pass, &mut Never, trial, &LOOK);
    trial.read_word.store(u64::from(value), Ordering::SeqCst);
}

// Both at once; `waits` says whether pass 1 waits for the lock, and else it tries.
fn overlap_all<R: Threads + Wait + Sync>(
    rt: &R,
    cell: &RwCell<Register>,
    trial: &Trial,
    waits: bool,
    passes: &mut [RwPass<Register>],
)
    requires cell { All (λ p. (p.cell ≡ cell.now.id) × (1 < p.left)) passes.old }
{
    let job = |_place: usize, pass: &mut RwPass<Register>|
        requires { (pass.now.cell ≡ cell.now.id) × (1 < pass.now.left) }
    {
        if waits {
            wait_behind(rt, cell, trial, pass);
        } else {
            overlap(rt, cell, trial, pass);
        }
    };
    thread::for_each_mut(rt, passes, 2, &job);
}

// Both at once on a new cell, and nobody gives up.
fn overlap_on_a_new<R: Abort + Threads + Wait + Sync>(
    rt: &R,
    alloc: Global,
    trial: &Trial,
    waits: bool,
) {
    let (cell, mut passes) = open_two(rt, alloc, Form::Rw);
    overlap_all(rt, &cell, trial, waits, &mut passes);
    same(rt, &trial.late.count(), &0);
}

// This was found.
fn is_found(rt: &impl Abort, found: &AtomicU64, due: u64) {
    same(rt, &found.load(Ordering::SeqCst), &due);
}

#[test]
fn a_try_beside_a_writer_is_told_the_lock_word(rt: HostRuntime) {
    let trial = Trial::new();
    overlap_on_a_new(&rt, rt.alloc(), &trial, false);
    is_found(&rt, &trial.read_word, 1);
    is_found(&rt, &trial.write_word, 1);
}

// It doesn't try on and on while another pass holds the lock.
#[test]
fn a_reader_queues_behind_a_writer(rt: HostRuntime) {
    let trial = Trial::new();
    overlap_on_a_new(&rt, rt.alloc(), &trial, true);
    is_found(&rt, &trial.read_word, 7);
}
