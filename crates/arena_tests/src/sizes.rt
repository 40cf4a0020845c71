//! A million locks, and a thousand seats.
use shared_tests::PLAIN;
use shfl_arena::{Arena, Shape};
use shfl_line::{Form, Mode};
use std::test::Fail;

#[test]
fn one_million_locks_are_opened(rt: HostRuntime) -> Result<(), Fail> {
    for spread in [false, true] {
        let shape = Shape {
            locks: 1_000_000,
            spread,
        };
        let values = Vec::new(rt.alloc());
        let attrs = [PLAIN, PLAIN, PLAIN];
        let (arena, seats) = Arena::<()>::open(
            rt.alloc(),
            shape,
            &attrs,
            Form::Spin,
            1024,
            values,
        )?;
        let mut refused = 0u32;
        for mut seat in seats {
            if seat.attempt(&arena, 999_999, Mode::Write).is_err() {
                refused = refused.wrapping_add(1);
            }
        }
        assert_eq!(rt; refused, 2);
    }
    Ok(())
}

#[test]
fn a_thousand_seats_are_opened_and_closed(rt: HostRuntime) -> Result<(), Fail> {
    let attrs = vec![in rt.alloc(); PLAIN; 1024]?;
    let shape = Shape {
        locks: 3,
        spread: false,
    };
    for _ in 0..2 {
        let values = Vec::new(rt.alloc());
        let (arena, seats) = Arena::<()>::open(
            rt.alloc(),
            shape,
            &attrs,
            Form::RwPark,
            1024,
            values,
        )?;
        assert_eq!(rt; seats.len(), 1024);
        for mut seat in seats {
            assert_eq!(rt; seat.attempt(&arena, 2, Mode::Read), Ok(()));
        }
    }
    Ok(())
}
