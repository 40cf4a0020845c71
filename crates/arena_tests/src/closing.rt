//! Mutexes that are closed with all their seats give each value back.
ghost use Rattle.std.specs.Prelude.{◌≡◌, All, IfSome, true, vec_len};
ghost use Rattle.shfl_arena.specs.SeatModels.{IsNewAt};

use shared_tests::PLAIN;
use shfl_arena::ArenaSeat;
use shfl_line::{Form, Never};
use shfl_mutex::{MutexSeat, Mutexes};
use std::alloc::Global;
use std::sync::Wait;
use std::test::Fail;

// Adds a number to the value of a mutex.
fn add<Rt: Wait>(rt: &Rt, seat: &mut MutexSeat<u64>, lock: u32, more: u64) -> bool
    ensures { result ≡ true
        → (seat.new.arena ≡ seat.old.arena) × (seat.new.held ≡ seat.old.held) }
{
    let Ok(value) = seat.take(rt, lock, &mut Never) else {
        return false;
    };
    seat.put_back(lock, value.wrapping_add(more)).is_ok()
}

// A seat enters, adds to two values, and leaves; but the first one never enters.
fn visit<Rt: Wait>(
    rt: &Rt,
    alloc: Global,
    mutexes: &Mutexes<u64>,
    own: ArenaSeat<u64>,
) -> Option<ArenaSeat<u64>>
    requires { IsNewAt mutexes.now.id own }
    ensures { IfSome result (IsNewAt mutexes.now.id) }
{
    if own.number() == 0 {
        return Some(own);
    }
    let Ok(mut seat) = mutexes.enter(alloc, own, PLAIN, 1) else {
        return None;
    };
    if !add(rt, &mut seat, 0, 1) {
        return None;
    }
    if !add(rt, &mut seat, 2, 2) {
        return None;
    }
    let Ok(left) = seat.leave() else {
        return None;
    };
    Some(left)
}

// The values that are left, once each seat has visited.
fn values_left<Rt: Wait>(
    rt: &Rt,
    alloc: Global,
    mutexes: Mutexes<u64>,
    mut seats: Vec<ArenaSeat<u64>>,
) -> Option<Vec<u64>>
    requires seats { All (IsNewAt mutexes.id) seats.items }
    requires all { vec_len seats ≡ mutexes.threads }
{
    let Ok(mut back) = Vec::with_capacity(alloc, seats.len()) else {
        return None;
    };
    while let Some(own) = seats.pop() {
        let left = visit(rt, alloc, &mutexes, own)?;
        back.push_reserved(left);
    }
    mutexes.close(alloc, back).ok()
}

#[test]
fn each_mutex_gives_its_value_back(rt: HostRuntime) -> Result<(), Fail> {
    for form in [Form::Spin, Form::RwPark] {
        let values = vec![in rt.alloc(); 10u64; 3]?;
        let (mutexes, seats) = Mutexes::open(rt.alloc(), values, false, &[PLAIN; 4], form)?;
        let Some(left) = values_left(&rt, rt.alloc(), mutexes, seats) else {
            panic!(rt; "memory for three values")
        };
        assert_eq!(rt; left.as_slice(), [13, 10, 16].as_slice());
    }
    Ok(())
}
