//! In which order passes hold the lock that have queued one after the other.
ghost use Rattle.std.specs.Prelude.{◌≡◌, ◌<◌, ◌≤◌, All};
ghost use Rattle.shfl_table.specs.PassModel.{IsIdleAt};

use crate::checks::same;
use shared_tests::{FAR, FORMS, PLAIN, await_sign};
use shfl_line::{Attr, BySocket, Chooser, Form, Mode, Never};
use shfl_table::{Pass, Queueing, SharedBoard, free, open, wait_by};
use std::alloc::Global;
use std::process::Abort;
use std::sync::Wait;
use std::sync::atomic::{AtomicU64, Ordering};
use std::thread;
use std::thread::Threads;
use syn_outer::{Gate, Point};

/// The attributes of the passes. The last one holds the lock first, until the others have queued.
const ATTRS: [Attr; 7] = [PLAIN, FAR, PLAIN, FAR, PLAIN, FAR, PLAIN];

const LAST: usize = 6;

/// How the passes wait.
#[derive(Clone, Copy, Drop)]
struct Way {
    form: Form,
    limit: u16,
    queueing: Queueing,
    by_socket: bool,
}

/// How far each pass is, and who held the lock.
#[derive(Drop)]
struct Turns {
    // how often each pass has joined the queue or ended a round
    queued: [AtomicU64; 7],
    holders: [AtomicU64; 7],
    holds: AtomicU64,
}

fn seven_zeros() -> [AtomicU64; 7] {
    [
        AtomicU64::new(0),
        AtomicU64::new(0),
        AtomicU64::new(0),
        AtomicU64::new(0),
        AtomicU64::new(0),
        AtomicU64::new(0),
        AtomicU64::new(0),
    ]
}

impl Turns {
    fn new() -> Turns {
        Turns {
            queued: seven_zeros(),
            holders: seven_zeros(),
            holds: AtomicU64::new(0),
        }
    }

    /// Waits until the pass before this one has queued, or for the first one until the lock is held. The first one is the queue's head, and
    /// has ended its round before the second one queues, where a batch has room for one.
    fn await_turn<R: Wait>(&self, rt: &R, number: usize, limit: u16) {
        if number == 0 {
            await_sign(rt, &self.holds, 1);
        } else if number == 1 && limit > 1 {
            await_sign(rt, &self.queued[0], 2);
        } else if number < LAST {
            await_sign(rt, &self.queued[number - 1], 1);
        }
    }

    /// Notes the holder. The last pass stays until all have queued, and the first one until the second has ended its round, where a
    /// batch has room for one.
    fn stay<R: Wait>(&self, rt: &R, number: usize, limit: u16) {
        let holds = &self.holds;
        let place = holds.fetch_add(1, Ordering::SeqCst);
        if let Some(holder) = self.holders.get(place as usize) {
            holder.store(number as u64, Ordering::SeqCst);
        }
        if number == LAST {
            await_sign(rt, &self.queued[LAST - 1], 1);
        } else if number == 0 && limit > 1 {
            await_sign(rt, &self.queued[1], 2);
        }
    }

    /// Who held the lock, in order.
    fn order(&self) -> [u64; 7] {
        let mut order = [9; 7];
        for place in 0..7 {
            let holder = &self.holders[place];
            order[place] = holder.load(Ordering::SeqCst);
        }
        order
    }
}

impl Gate for Turns {
    fn at<Rt: Wait>(&self, _rt: &Rt, worker: u32, point: Point) {
        if matches!(point, Point::Queued) {
            if let Some(queued) = self.queued.get(worker as usize) {
                let _ = queued.fetch_add(1, Ordering::SeqCst);
            }
        }
    }
}

/// Queues when its turn has come, and holds the lock once.
fn hold<C: Chooser, R: Wait>(
    rt: &R,
    board: &SharedBoard<()>,
    pass: &mut Pass<()>,
    way: Way,
    place: usize,
    chooser: &mut C,
    turns: &Turns,
)
    requires place { place < 7 }
    requires pass { IsIdleAt board.now.id pass.old }
    ensures { IsIdleAt board.now.id pass.new }
{
    turns.await_turn(rt, place, way.limit);
    let anchor = &ATTRS[place];
    wait_by(
        rt,
        board,
        pass,
        Mode::Write,
        way.queueing,
        anchor,
        chooser,
        turns,
    );
    turns.stay(rt, place, way.limit);
    free(board, pass);
}

/// The same, by the policy.
fn hold_by<R: Wait>(
    rt: &R,
    board: &SharedBoard<()>,
    pass: &mut Pass<()>,
    way: Way,
    place: usize,
    turns: &Turns,
)
    requires pass { IsIdleAt board.now.id pass.old }
    ensures { IsIdleAt board.now.id pass.new }
{
    if place > LAST {
        return;
    }
    if way.by_socket {
        hold(rt, board, pass, way, place, &mut BySocket, turns);
    } else {
        hold(rt, board, pass, way, place, &mut Never, turns);
    }
}

/// Each pass holds the lock once, in a thread of its own.
fn hold_all<R: Threads + Wait + Sync>(
    rt: &R,
    board: &SharedBoard<()>,
    passes: &mut [Pass<()>],
    way: Way,
    turns: &Turns,
)
    requires { All (IsIdleAt board.now.id) passes.old }
{
    let job = |place: usize, pass: &mut Pass<()>|
        requires pass { IsIdleAt board.now.id pass.now }
        ensures { IsIdleAt board.entry.now.id pass.exit.now }
    { hold_by(rt, board, pass, way, place, turns) };
    thread::for_each_mut(rt, passes, LAST + 1, &job);
}

/// Seven passes that wait in this way hold the lock in this order.
fn hold_in_order<R: Abort + Threads + Wait + Sync>(rt: &R, alloc: Global, way: Way, due: &[u64; 7])
    requires limit { (0 < way.limit) × (way.limit ≤ 1024) }
{
    let opened = open::<()>(alloc, &ATTRS, way.form, way.limit, Vec::new(alloc));
    let Ok((board, mut passes)) = opened else {
        panic!(rt; "memory")
    };
    let turns = Turns::new();
    hold_all(rt, &board, &mut passes, way, &turns);
    same(rt, &turns.order(), due);
}

impl Way {
    fn new(form: Form, queueing: Queueing, limit: u16, by_socket: bool) -> Way
        ensures { result.limit ≡ limit }
    {
        Way {
            form,
            limit,
            queueing,
            by_socket,
        }
    }
}

/// First in, first out without a policy, and under one with batches of one. Else the second pass moves the fourth, which is on its
/// socket, before the third, and never the last.
fn check_orders<R: Abort + Threads + Wait + Sync>(
    rt: &R,
    alloc: Global,
    form: Form,
    queueing: Queueing,
) {
    let alone = Way::new(form, queueing, 1024, false);
    let by_one = Way::new(form, queueing, 1, true);
    let by_socket = Way::new(form, queueing, 1024, true);
    hold_in_order(rt, alloc, alone, &[6, 0, 1, 2, 3, 4, 5]);
    hold_in_order(rt, alloc, by_one, &[6, 0, 1, 2, 3, 4, 5]);
    hold_in_order(rt, alloc, by_socket, &[6, 0, 1, 3, 2, 4, 5]);
}

#[test]
fn those_who_queue_hold_in_the_order_that_the_policy_makes(rt: HostRuntime) {
    for form in FORMS {
        check_orders(&rt, rt.alloc(), form, Queueing::AtOnce);
        check_orders(&rt, rt.alloc(), form, Queueing::ByPolicy);
    }
}
