//! Values that several threads read at a time, or one writes.
ghost use Rattle.std.specs.Prelude.{All};
ghost use Rattle.shfl_arena.specs.SeatModels.{IsNewAt};

use shared_tests::{Draws, PLAIN};
use shfl_arena::ArenaSeat;
use shfl_line::{Form, Never, NoMemory};
use shfl_rwlock::{LockError, RwLocks, RwSeat};
use std::alloc::Global;
use std::sync::Wait;
use std::test::Fail;
use std::thread;
use std::thread::Threads;

const LOCKS: u32 = 3;

const ROUNDS: u32 = 500;

// Two numbers that are the same wherever nobody writes them.
type Pair = (u64, u64);

// How often a thread has written a value, and how often it has read one whose numbers differ.
#[derive(Clone, Copy, Debug, PartialEq, Eq, Drop)]
struct Done {
    written: u64,
    torn: u64,
}

fn add<Rt: Wait>(rt: &Rt, seat: &mut RwSeat<Pair>, lock: u32, done: &mut Done) {
    let Ok(mut guard) = seat.write(rt, lock, &mut Never) else {
        return;
    };
    let pair = &mut *guard;
    pair.0 = pair.0.wrapping_add(1);
    pair.1 = pair.1.wrapping_add(1);
    done.written = done.written.wrapping_add(1);
}

// Reads a value, and while it has that one writes the next.
fn look<Rt: Wait>(rt: &Rt, seat: &mut RwSeat<Pair>, lock: u32, done: &mut Done) {
    let Ok(guard) = seat.read(rt, lock, &mut Never) else {
        return;
    };
    let (first, second) = *guard.value;
    if lock < LOCKS - 1 {
        add(rt, guard.hold.seat, lock + 1, done);
    }
    if (first, second) != *guard.value || first != second {
        done.torn = done.torn.wrapping_add(1);
    }
}

// What one thread does: of four rounds it writes in one.
fn work<Rt: Wait>(rt: &Rt, alloc: Global, locks: &RwLocks<Pair>, own: ArenaSeat<()>) -> Done
    requires { IsNewAt locks.now.id own }
{
    let mut done = Done {
        written: 0,
        torn: 0,
    };
    let mut draws = Draws::new(u64::from(own.number()));
    let Ok(mut seat) = locks.enter(alloc, own, PLAIN, 2) else {
        return done;
    };
    for _ in 0..ROUNDS {
        let lock = draws.below(LOCKS);
        if draws.below(4) == 0 {
            add(rt, &mut seat, lock, &mut done);
        } else {
            look(rt, &mut seat, lock, &mut done);
        }
    }
    done
}

// What all threads do, one for each seat.
fn work_all<R: Threads + Wait + Sync>(
    rt: &R,
    alloc: Global,
    locks: &RwLocks<Pair>,
    seats: Vec<ArenaSeat<()>>,
) -> Result<Done, NoMemory>
    requires { All (IsNewAt locks.now.id) seats.items }
{
    let job = |own: ArenaSeat<()>|
        requires { IsNewAt locks.now.id own }
    { work(rt, alloc, locks, own) };
    let Ok(each) = thread::map_vec(rt, seats, &job) else {
        return Err(NoMemory);
    };
    let mut all = Done {
        written: 0,
        torn: 0,
    };
    for done in each {
        all.written = all.written.wrapping_add(done.written);
        all.torn = all.torn.wrapping_add(done.torn);
    }
    Ok(all)
}

#[test]
fn readers_never_see_half_a_write(rt: HostRuntime) -> Result<(), Fail> {
    let attrs = [PLAIN; 4];
    for form in [Form::Rw, Form::RwPark] {
        let values = vec![in rt.alloc(); (0u64, 0u64); LOCKS as usize]?;
        let (locks, seats) = RwLocks::open(rt.alloc(), values, false, &attrs, form)?;
        let done = work_all(&rt, rt.alloc(), &locks, seats)?;
        assert_eq!(rt; done.torn, 0);
        let Ok(values) = locks.close(rt.alloc()) else {
            panic!(rt; "memory for three values")
        };
        let mut sum = (0u64, 0u64);
        for pair in values {
            sum.0 = sum.0.wrapping_add(pair.0);
            sum.1 = sum.1.wrapping_add(pair.1);
        }
        assert_eq!(rt; sum, (done.written, done.written));
    }
    Ok(())
}

// What an attempt to read a value gives, or why there is none.
fn seen(seat: &mut RwSeat<u64>, lock: u32) -> Result<u64, LockError> {
    match seat.try_read(lock) {
        Ok(guard) => Ok(*guard),
        Err(cause) => Err(cause),
    }
}

// Writes a value where an attempt may; else why not.
fn put(seat: &mut RwSeat<u64>, lock: u32, value: u64) -> Result<(), LockError> {
    match seat.try_write(lock) {
        Ok(mut guard) => {
            *guard = value;
            Ok(())
        }
        Err(cause) => Err(cause),
    }
}

// What another seat may do while this one reads.
fn beside_a_reader<Rt: Wait>(
    rt: &Rt,
    seat: &mut RwSeat<u64>,
    other: &mut RwSeat<u64>,
) -> Result<(u64, LockError), LockError> {
    let _guard = seat.read(rt, 0, &mut Never)?;
    let value = seen(other, 0)?;
    match put(other, 0, 9) {
        Ok(()) => Ok((value, LockError::Held)),
        Err(cause) => Ok((value, cause)),
    }
}

// And what it may not do itself.
fn while_it_writes<Rt: Wait>(
    rt: &Rt,
    seat: &mut RwSeat<u64>,
) -> Result<(Result<u64, LockError>, Result<u64, LockError>), LockError> {
    let guard = seat.write(rt, 0, &mut Never)?;
    let same = seen(guard.hold.seat, 0);
    let another = seen(guard.hold.seat, 1);
    Ok((same, another))
}

#[test]
fn readers_share_and_a_writer_excludes(rt: HostRuntime) -> Result<(), Fail> {
    let values = vec![in rt.alloc(); 7u64; 2]?;
    let attrs = [PLAIN; 2];
    let (locks, mut seats) = RwLocks::open(rt.alloc(), values, false, &attrs, Form::Rw)?;
    let (Some(last), Some(first)) = (seats.pop(), seats.pop()) else {
        panic!(rt; "two seats")
    };
    let Ok(mut a) = locks.enter(rt.alloc(), first, PLAIN, 1) else {
        panic!(rt; "memory for one lock")
    };
    let Ok(mut b) = locks.enter(rt.alloc(), last, PLAIN, 1) else {
        panic!(rt; "memory for one lock")
    };
    assert_eq!(rt;
        beside_a_reader(&rt, &mut a, &mut b),
        Ok((7, LockError::Busy))
    );
    assert_eq!(rt; put(&mut b, 0, 8), Ok(()));
    assert_eq!(rt; seen(&mut a, 0), Ok(8));
    Ok(())
}

#[test]
fn a_seat_is_told_why(rt: HostRuntime) -> Result<(), Fail> {
    let values = vec![in rt.alloc(); 7u64; 2]?;
    let (locks, mut seats) = RwLocks::open(rt.alloc(), values, true, &[PLAIN], Form::RwPark)?;
    let Some(own) = seats.pop() else {
        panic!(rt; "one seat")
    };
    let Ok(mut seat) = locks.enter(rt.alloc(), own, PLAIN, 1) else {
        panic!(rt; "memory for one lock")
    };
    let told = while_it_writes(&rt, &mut seat);
    assert_eq!(rt; told, Ok((Err(LockError::Held), Err(LockError::Full))));
    assert_eq!(rt; put(&mut seat, 2, 9), Err(LockError::NoSuchLock));
    Ok(())
}
