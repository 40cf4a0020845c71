//! Schedules drawn at random run on words that threads share as they do on plain words, in every form.
ghost use Rattle.std.specs.Prelude.{◌≡◌, ◌<◌, ◌≤◌};
ghost use Rattle.shfl_core.specs.Waiting.{fresh};
ghost use Rattle.shfl_line.specs.declared.events.Form.TheVariants.{Rw as RwForm, Park as ParkForm, RwPark as RwParkForm};

use crate::boards::Boards;
use crate::driven::drive_all;
use shared_tests::{Draws, FAR, PLAIN};
use shfl_core::{Local, PlainWorld, Waiter};
use shfl_line::{Attr, Form, NoMemory};
use shfl_park::Parked;
use shfl_rw_core::RwLocal;
use shfl_table::open;
use std::alloc::Global;
use std::test::Fail;

/// How many events a schedule has.
const EVENTS: u32 = 2_000;

/// The last one is of a pass that has no event: it looks at the lock word.
const ATTRS: [Attr; 8] = [PLAIN, FAR, PLAIN, PLAIN, FAR, PLAIN, FAR, PLAIN];

const DRAWN: u32 = 7;

fn sharing(me: u32, attr: Attr, limit: u16) -> RwLocal
    ensures { result ≡ fresh me attr (record { limit = limit; form = RwForm }) }
{
    RwLocal::new(me, attr, limit, Form::Rw)
}

fn parking(me: u32, attr: Attr, limit: u16) -> Parked<Local>
    ensures { result ≡ fresh me attr (record { limit = limit; form = ParkForm }) }
{
    Parked::new(Local::new(me, attr, limit))
}

fn parking_and_sharing(me: u32, attr: Attr, limit: u16) -> Parked<RwLocal>
    ensures { result ≡ fresh me attr (record { limit = limit; form = RwParkForm }) }
{
    Parked::new(sharing(me, attr, limit))
}

// Whether a schedule runs alike on both boards.
fn runs_alike<W: Waiter + Drop>(boards: &mut Boards<W>, seed: u64) -> bool {
    let mut draws = Draws::new(seed);
    for _ in 0..EVENTS {
        let event = draws.event(DRAWN);
        if !boards.make(event) || !boards.words_agree() {
            return false;
        }
        for pass in 0..DRAWN {
            if !boards.agree(pass) {
                return false;
            }
        }
    }
    true
}

// Whether a lock over shared words runs as this one does.
fn runs_as<W: Waiter + Drop>(
    alloc: Global,
    plain: PlainWorld<W>,
    form: Form,
    limit: u16,
) -> Result<bool, NoMemory>
    requires limit { (0 < limit) × (limit ≤ 1024) }
    requires form { plain.rules.form ≡ form }
{
    let (board, passes) = open::<()>(alloc, &ATTRS, form, limit, Vec::new(alloc))?;
    let mut shared = drive_all(alloc, form, &board, passes)?;
    let Some(spare) = shared.pop() else {
        return Ok(false);
    };
    let mut boards = Boards::new(plain, shared, spare, form);
    Ok(runs_alike(&mut boards, u64::from(limit)))
}

fn spinning(alloc: Global, limit: u16) -> Result<bool, NoMemory>
    requires { (0 < limit) × (limit ≤ 1024) }
{
    let plain = PlainWorld::open(alloc, &ATTRS, limit, Local::new)?;
    runs_as(alloc, plain, Form::Spin, limit)
}

fn shared(alloc: Global, limit: u16) -> Result<bool, NoMemory>
    requires { (0 < limit) × (limit ≤ 1024) }
{
    let plain = PlainWorld::open(alloc, &ATTRS, limit, sharing)?;
    runs_as(alloc, plain, Form::Rw, limit)
}

fn parked(alloc: Global, limit: u16) -> Result<bool, NoMemory>
    requires { (0 < limit) × (limit ≤ 1024) }
{
    let plain = PlainWorld::open(alloc, &ATTRS, limit, parking)?;
    runs_as(alloc, plain, Form::Park, limit)
}

fn parked_and_shared(alloc: Global, limit: u16) -> Result<bool, NoMemory>
    requires { (0 < limit) × (limit ≤ 1024) }
{
    let plain = PlainWorld::open(alloc, &ATTRS, limit, parking_and_sharing)?;
    runs_as(alloc, plain, Form::RwPark, limit)
}

#[test]
fn schedules_run_alike(rt: HostRuntime) -> Result<(), Fail> {
    for limit in [1, 2, 1024] {
        let spin = spinning(rt.alloc(), limit)?;
        let rw = shared(rt.alloc(), limit)?;
        let park = parked(rt.alloc(), limit)?;
        let rw_park = parked_and_shared(rt.alloc(), limit)?;
        assert!(rt; spin && rw && park && rw_park);
    }
    Ok(())
}
