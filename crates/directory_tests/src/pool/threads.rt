//! Takers in threads.
ghost use Rattle.std.specs.Prelude.{◌≡◌, All, vec_len};
ghost use Rattle.dir_table.specs.Meanings.{IsAdmitted};

use crate::checks::{holds, same};
use crate::directory::opened;
use call_pool::{Numbered, run_pool};
use dir_table::{Dir, DirCall, DirReply};
use hist_log::Entry;
use shared_tests::{FAR, Mark, PLAIN};
use shfl_line::Attr;
use shfl_policy::Policy;
use std::alloc::Global;
use std::process::Abort;
use std::sync::Wait;
use std::thread::Threads;
use syn_outer::{Gate, OpenGate, Point};

const CALLS: u32 = 4096;

/// Each worker waits at its first call until both were there.
#[derive(Drop)]
struct BothThere {
    there: [Mark; 2],
    late: Mark,
}

impl Gate for BothThere {
    fn at<Rt: Wait>(&self, _rt: &Rt, worker: u32, point: Point) {
        if point != Point::BeforeCall || worker > 1 {
            return;
        }
        self.there[worker as usize].set();
        self.there[0].wait(1, &self.late);
        self.there[1].wait(1, &self.late);
    }
}

/// Neither was late, and each of them had one of two calls to make the same name.
fn made_once(rt: &impl Abort, late: &Mark, history: &[Entry<Numbered<Dir>>]) {
    same(rt, &late.count(), &0);
    assert_eq!(rt; history.len(), 2);
    holds(rt, history[0].worker != history[1].worker);
    same(rt, &history[0].reply, &DirReply::Ino(1));
    same(rt, &history[1].reply, &DirReply::Exists);
}

const MAKES: [DirCall; 2] = [DirCall::Make { dir: 0, name: 0 }; 2];

// What two takers on two sockets did with two calls at this gate.
fn history_of_two<R: Abort + Threads + Wait + Sync>(
    rt: &R,
    alloc: Global,
    gate: &BothThere,
) -> Vec<Entry<Numbered<Dir>>> {
    let policy = Policy::new(0, None, None);
    let dir = opened(rt, alloc, 1, 4);
    let attrs = [PLAIN, FAR];
    let ran = run_pool(rt, alloc, dir, &policy, &attrs, &MAKES, false, gate).ok();
    let (_dir, history, _logs) = ran.expect(rt, "memory");
    history
}

#[test]
fn two_takers(rt: HostRuntime) {
    let gate = BothThere {
        there: [Mark::new(), Mark::new()],
        late: Mark::new(),
    };
    let history = history_of_two(&rt, rt.alloc(), &gate);
    made_once(&rt, &gate.late, &history);
}

// A name for each call.
fn makes(rt: &impl Abort, alloc: Global) -> Vec<DirCall>
    ensures len { vec_len result ≡ 4096 }
    ensures admitted { All (IsAdmitted 4096) result.items }
{
    let mut calls = Vec::new(alloc);
    for name in 0..CALLS {
        let dir = (name % 64) as u8;
        let made = calls.push(DirCall::Make { dir, name });
        made.ok().expect(rt, "memory");
    }
    calls
}

// Whether each name was made, in the order of the history, and the call of each place stands there once, where none was there.
fn all_made(there: &mut [bool], history: &[Entry<Numbered<Dir>>]) -> bool {
    let mut ino = 1;
    for entry in history {
        let Some(here) = there.get_mut(entry.call.at as usize) else {
            return false;
        };
        if *here || entry.reply != DirReply::Ino(ino) {
            return false;
        }
        *here = true;
        ino = u64::wrapping_add(ino, 1);
    }
    history.len() == CALLS as usize
}

/// Sixteen takers on two sockets.
const SIXTEEN: [Attr; 16] = [
    PLAIN, FAR, PLAIN, FAR, PLAIN, FAR, PLAIN, FAR, PLAIN, FAR, PLAIN, FAR, PLAIN, FAR, PLAIN, FAR,
];

#[test]
fn sixteen_takers_make_each_call_once(rt: HostRuntime) {
    let alloc = rt.alloc();
    let policy = Policy::new(0, None, None);
    let calls = makes(&rt, alloc);
    let dir = opened(&rt, alloc, CALLS, 16 * CALLS);
    let ran = run_pool(&rt, alloc, dir, &policy, &SIXTEEN, &calls, false, &OpenGate).ok();
    let (_dir, history, _logs) = ran.expect(&rt, "memory");
    let there = Vec::from_elem(alloc, false, CALLS as usize).ok();
    let mut there = there.expect(&rt, "memory");
    holds(&rt, all_made(&mut there, &history));
}
