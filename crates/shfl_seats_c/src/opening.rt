//! An arena is opened, and its seats are closed.
ghost use Rattle.std.specs.Prelude.{◌≡◌, ◌≢◌, ◌↔◌, [], ◌∷◌, ◌<◌, ◌≤◌, length, map, IfOk};
ghost use Rattle.shfl_core.specs.Words.{most_passes};
ghost use Rattle.shfl_seats.specs.Tickets.{TicketModel, MayOpenArena};
ghost use Rattle.shfl_ticket.specs.Told.{form_numbered};
ghost use Rattle.shfl_seats_c.specs.Opened.{HoldSeats, tickets_of};

use crate::handle::{ShflSeat, taken};
use shfl_arena::Shape;
use shfl_line::NoMemory;
use shfl_seats::{SeatTicket, open, opens};
use shfl_ticket::{boxed_each, form_numbered};
use std::alloc::Global;

// A handle for each of the tickets, in order.
fn handles_of(
    alloc: Global,
    tickets: Vec<Box<SeatTicket, Global>>,
) -> Result<Vec<ShflSeat>, NoMemory>
    ensures { IfOk result (λ v.
        tickets_of v.items ≡ map (λ b. b.value ∷ []) tickets.items) }
{
    let mut handles = Vec::with_capacity(alloc, tickets.len())?;
    for ticket in tickets {
        handles.push_reserved(ShflSeat::new(ticket));
    }
    Ok(handles)
}

// The handles of an arena that is opened.
fn opened(
    alloc: Global,
    shape: Shape,
    threads: u32,
    form: u8,
    limit: u16,
) -> Result<Vec<ShflSeat>, NoMemory>
    requires { MayOpenArena shape.locks threads form limit }
    ensures { IfOk result (λ v. HoldSeats shape
        (record { limit = limit; form = form_numbered form }) threads v.items) }
{
    let tickets = open(alloc, shape, threads, form_numbered(form), limit)?;
    handles_of(alloc, boxed_each(alloc, tickets)?)
}

/// Opens an arena of so many locks with a seat in each handle, in order. 0: it is open. 4: an argument is out of its range (1 to 2^24 locks, 1
/// to 65,535 seats, a form below 4, a limit of 1 to 1,024). 5: there is no memory. Unless it is open, each handle is as it was.
#[unsafe(no_mangle)]
pub extern "C" fn shfl_seats_open(
    alloc: Global,
    locks: u32,
    spread: bool,
    form: u8,
    limit: u16,
    seats: &mut [ShflSeat],
) -> u8
    requires zero { tickets_of seats.old ≡ map (λ _. []) seats.old }
    ensures bad { (result ≡ 4) ↔ ¬ (MayOpenArena locks (length seats.old) form limit) }
    ensures opened { result ≡ 0 → HoldSeats (record { locks = locks; spread = spread })
        (record { limit = limit; form = form_numbered form }) (length seats.old) seats.new }
    ensures refused { result ≢ 0 → seats.new ≡ seats.old }
    ensures told { result ≢ 0 → result ≢ 4 → result ≡ 5 }
{
    if !opens(locks, seats.len(), form, limit) {
        return 4;
    }
    match opened(
        alloc,
        Shape { locks, spread },
        seats.len() as u32,
        form,
        limit,
    ) {
        Ok(mut handles) => {
            seats.swap_with_slice(handles.as_mut_slice());
            0
        }
        Err(_) => 5,
    }
}

/// Gives a seat back. The last one of an arena takes the arena with it.
#[unsafe(no_mangle)]
pub extern "C" fn shfl_seat_close(alloc: Global, seat: &mut ShflSeat)
    ghost x: { TicketModel }
    requires open { seat.old.tickets ≡ x ∷ [] }
    ensures { seat.new.tickets ≡ [] }
{
    drop(taken(alloc, seat));
}
