//! Sixteen threads that hold mutexes while they wait for higher ones.
ghost use Rattle.std.specs.Prelude.{All};
ghost use Rattle.shfl_arena.specs.SeatModels.{IsNewAt};

use shared_tests::{Draws, FORMS, PLAIN};
use shfl_arena::ArenaSeat;
use shfl_line::{Form, Never, NoMemory};
use shfl_mutex::{MutexSeat, Mutexes};
use std::alloc::Global;
use std::sync::Wait;
use std::test::Fail;
use std::thread;
use std::thread::Threads;

const ROUNDS: u32 = 100;

// How many mutexes a thread has at most: it waits for the last one while it has eight.
const DEPTH: u32 = 9;

// Adds one to values from this one on, each drawn and locked while those before are locked. How many it was.
fn add_rising<Rt: Wait>(
    rt: &Rt,
    seat: &mut MutexSeat<u64>,
    draws: &mut Draws,
    from: u32,
    locks: u32,
    depth: u32,
) -> u64 {
    if depth == 0 || from >= locks || locks - from < depth {
        return 0;
    }
    let lock = from + draws.below((locks - from) / depth);
    let Ok(mut guard) = seat.lock(rt, lock, &mut Never) else {
        return 0;
    };
    guard.value = guard.value.wrapping_add(1);
    add_rising(rt, guard.seat, draws, lock + 1, locks, depth - 1).wrapping_add(1)
}

// What one thread adds.
fn work<Rt: Wait>(rt: &Rt, alloc: Global, mutexes: &Mutexes<u64>, own: ArenaSeat<u64>) -> u64
    requires { IsNewAt mutexes.now.id own }
{
    let mut draws = Draws::new(u64::from(own.number()));
    let Ok(mut seat) = mutexes.enter(alloc, own, PLAIN, DEPTH as usize) else {
        return 0;
    };
    let mut added = 0u64;
    for _ in 0..ROUNDS {
        let more = add_rising(rt, &mut seat, &mut draws, 0, mutexes.len(), DEPTH);
        added = added.wrapping_add(more);
    }
    added
}

// The sum of all values, where no other thread has one.
fn total(seat: &mut MutexSeat<u64>, locks: u32) -> Option<u64> {
    let mut sum = 0u64;
    for lock in 0..locks {
        let guard = seat.try_lock(lock).ok()?;
        sum = sum.wrapping_add(*guard);
    }
    Some(sum)
}

// What all threads add, one for each seat.
fn add_all<R: Threads + Wait + Sync>(
    rt: &R,
    alloc: Global,
    mutexes: &Mutexes<u64>,
    seats: Vec<ArenaSeat<u64>>,
) -> Result<u64, NoMemory>
    requires { All (IsNewAt mutexes.now.id) seats.items }
{
    let job = |own: ArenaSeat<u64>|
        requires { IsNewAt mutexes.now.id own }
    { work(rt, alloc, mutexes, own) };
    let Ok(added) = thread::map_vec(rt, seats, &job) else {
        return Err(NoMemory);
    };
    let mut all = 0u64;
    for more in added {
        all = all.wrapping_add(more);
    }
    Ok(all)
}

#[test]
fn sixteen_threads_count_exactly(rt: HostRuntime) -> Result<(), Fail> {
    let attrs = [PLAIN; 17];
    for form in FORMS {
        for locks in [12, 1000] {
            let values = vec![in rt.alloc(); 0u64; locks]?;
            let (mutexes, mut seats) = Mutexes::open(rt.alloc(), values, false, &attrs, form)?;
            let Some(last) = seats.pop() else {
                panic!(rt; "seventeen seats")
            };
            let all = add_all(&rt, rt.alloc(), &mutexes, seats)?;
            assert_eq!(rt; all, 16 * 100 * 9);
            let Ok(mut reader) = mutexes.enter(rt.alloc(), last, PLAIN, 1) else {
                panic!(rt; "a seat that may lock")
            };
            assert_eq!(rt; total(&mut reader, mutexes.len()), Some(all));
        }
    }
    Ok(())
}
