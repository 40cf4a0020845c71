//! Two passes whose calls overlap.
ghost use Rattle.std.specs.Prelude.{◌≡◌, ◌<◌, All, [], IfOk};

use super::marks::TwoMarks;
use crate::checks::same;
use crate::register::Register;
use shared_tests::{PLAIN, Recorder};
use shfl_cell::{CellPass, ShflCell};
use shfl_line::{Form, Never, NoMemory, Told};
use std::alloc::Global;
use std::process::Abort;
use std::sync::Wait;
use std::sync::atomic::{AtomicU64, Ordering};
use std::thread;
use std::thread::Threads;

/// What two calls showed.
#[derive(Drop)]
struct Shown {
    // The word that a try found, the place of the next one, and its reply.
    word: AtomicU64,
    place: AtomicU64,
    reply: AtomicU64,
    // How much the policy of pass 1 was told, and the batch of its one round, where the answer was no to a skip.
    heard: AtomicU64,
    batch: AtomicU64,
}

impl Shown {
    fn new() -> Shown {
        Shown {
            word: AtomicU64::new(0),
            place: AtomicU64::new(0),
            reply: AtomicU64::new(0),
            heard: AtomicU64::new(0),
            batch: AtomicU64::new(0),
        }
    }

    fn keep(&self, told: &[Told]) {
        self.heard.store(told.len() as u64, Ordering::SeqCst);
        let begun = matches!(told.first(), Some(Told::Begun));
        let ended = matches!(told.last(), Some(Told::Ended));
        if let Some(Told::Answered(answer)) = told.get(1) {
            if begun && ended && answer.waiter.is_none() && !answer.answer {
                self.batch.store(u64::from(answer.batch), Ordering::SeqCst);
            }
        }
    }
}

// Pass 0 calls while pass 1 tries, and tries again when the lock is free.
fn overlap<R: Wait>(
    rt: &R,
    cell: &ShflCell<Register>,
    gate: &TwoMarks,
    shown: &Shown,
    pass: &mut CellPass<Register>,
)
    requires cell { pass.old.cell ≡ cell.now.id }
    requires left { 1 < pass.old.left }
{
    if pass.number() == 0 {
        let _ = cell.apply(rt, pass, &mut Never, gate, &7);
        return;
    }
    gate.held.wait(1, &gate.late);
    if let Err(busy) = cell.try_apply(pass, &8) {
        shown.word.store(busy.word, Ordering::SeqCst);
    }
    gate.waited.set();
    gate.freed.wait(1, &gate.late);
    if let Ok((reply, receipt)) = cell.try_apply(pass, &9) {
        shown.reply.store(u64::from(reply), Ordering::SeqCst);
        shown.place.store(receipt.place, Ordering::SeqCst);
    }
}

// Pass 1 waits behind pass 0, and its policy keeps what it is told.
fn wait_behind<R: Wait>(
    rt: &R,
    alloc: Global,
    cell: &ShflCell<Register>,
    gate: &TwoMarks,
    shown: &Shown,
    pass: &mut CellPass<Register>,
)
    requires cell { pass.old.cell ≡ cell.now.id }
    requires left { 0 < pass.old.left }
{
    let mut policy = Recorder::new(alloc, false);
    let _ = cell.apply(rt, pass, &mut policy, gate, &pass.number());
    if pass.number() == 1 {
        if let Some(told) = policy.told() {
            shown.keep(told);
        }
    }
}

// Each pass acts in a thread of its own: the second waits behind the first, or tries beside it.
fn act_all<R: Threads + Wait + Sync>(
    rt: &R,
    alloc: Global,
    cell: &ShflCell<Register>,
    gate: &TwoMarks,
    shown: &Shown,
    waits: bool,
    passes: &mut [CellPass<Register>],
)
    requires cell { All (λ p. (p.cell ≡ cell.now.id) × (1 < p.left)) passes.old }
{
    let job = |_place: usize, pass: &mut CellPass<Register>|
        requires { (pass.now.cell ≡ cell.now.id) × (1 < pass.now.left) }
    {
        if waits {
            wait_behind(rt, alloc, cell, gate, shown, pass);
        } else {
            overlap(rt, cell, gate, shown, pass);
        }
    };
    thread::for_each_mut(rt, passes, 2, &job);
}

// A cell of two passes, with two calls each.
fn two_passes(alloc: Global) -> Result<(ShflCell<Register>, Vec<CellPass<Register>>), NoMemory>
    ensures { IfOk result (λ r. All (λ p. (p.cell ≡ r.0.id) × (1 < p.left)) r.1.items) }
{
    let register = Register { value: 0, spare: 4 };
    ShflCell::<Register>::open(alloc, register, &[PLAIN, PLAIN], Form::Spin, 1024, &[2, 2])
}

// The two act on a new cell: the second waits behind the first, or tries beside it. Nobody gives up.
fn show<R: Abort + Threads + Wait + Sync>(
    rt: &R,
    alloc: Global,
    times: u64,
    shown: &Shown,
    waits: bool,
) {
    let Ok((cell, mut passes)) = two_passes(alloc) else {
        panic!(rt; "memory")
    };
    let gate = TwoMarks::new(times);
    act_all(rt, alloc, &cell, &gate, shown, waits, &mut passes);
    same(rt, &gate.late.count(), &0);
}

// So much was shown.
fn is_shown(rt: &impl Abort, shown: &AtomicU64, due: u64) {
    same(rt, &shown.load(Ordering::SeqCst), &due);
}

#[test]
fn a_try_beside_a_holder_is_told_the_lock_word(rt: HostRuntime) {
    let shown = Shown::new();
    show(&rt, rt.alloc(), 1, &shown, false);
    is_shown(&rt, &shown.word, 1);
    is_shown(&rt, &shown.place, 1);
    is_shown(&rt, &shown.reply, 7);
}

#[test]
fn the_policy_of_a_waiter_is_asked_once_whether_to_skip(rt: HostRuntime) {
    let shown = Shown::new();
    show(&rt, rt.alloc(), 2, &shown, true);
    is_shown(&rt, &shown.heard, 3);
    is_shown(&rt, &shown.batch, 1);
}
