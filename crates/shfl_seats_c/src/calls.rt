//! What C does with a seat. Each number that C gives is judged: what doesn't fit is told, and then nothing changes.
ghost use Rattle.std.specs.Prelude.{◌≡◌, ◌≢◌, [], ◌∷◌, true, false};
ghost use Rattle.shfl_core.specs.Plan as plan;
ghost use Rattle.shfl_core.specs.Waiting as waiting;
ghost use Rattle.shfl_line.specs.Words.{attr_of};
ghost use Rattle.shfl_line.specs.declared.events.Mode.TheVariants.{Read};
ghost use Rattle.shfl_arena.specs.Threads.{mode_held};
ghost use Rattle.shfl_ticket.specs.Told.{ask_told, watch_told};
ghost use Rattle.shfl_seats.specs.Tickets.{TicketModel};
ghost use Rattle.shfl_seats_c.specs.Calls.{TellsAttempt, TellsAcquire, TellsStep, TellsRelease, mode_of, hold_told};

use crate::handle::ShflSeat;
use crate::lent::ticket_of;
use shfl_line::{Attr, Mode};
use shfl_seats::{SeatTicket, answer_told, progress_told};
use shfl_ticket::{ShflAsk, ShflWatch, ask_told, watch_told};

#[inline(always)]
fn mode_of(shared: bool) -> Mode
    ensures { result ≡ mode_of shared }
{
    if shared { Mode::Read } else { Mode::Write }
}

// How a lock is held, as C reads it.
fn hold_told(hold: Option<Mode>) -> u8
    ensures { result ≡ hold_told hold }
{
    match hold {
        None => 0,
        Some(Mode::Write) => 1,
        Some(Mode::Read) => 2,
    }
}

// A reader's attempt, apart: so a writer's, which comes oftener, asks for the mode but once.
#[inline(never)]
fn attempt_shared(ticket: &mut SeatTicket, lock: u32) -> u8
    ensures { TellsAttempt lock Read ticket.old result ticket.new }
{
    answer_told(ticket.attempt(lock, Mode::Read))
}

/// Takes a lock, as a reader where it is shared, by one operation, behind a look at its word that changes nothing. 0: it is held. 1: a word
/// was found that refuses it. 2: the seat holds it already. 4: there is no such lock, its form has no readers, or the seat has a step to make.
/// 5: there is no memory. Unless the answer is 0 the seat holds what it held.
#[unsafe(no_mangle)]
pub extern "C" fn shfl_seat_attempt(seat: &mut ShflSeat, lock: u32, shared: bool) -> u8
    ghost x: { TicketModel }
    requires open { seat.old.tickets ≡ x ∷ [] }
    ensures { (y : TicketModel) × (seat.new.tickets ≡ y ∷ [])
        × TellsAttempt lock (mode_of shared) x result y }
{
    let ticket = ticket_of(seat);
    if shared {
        return attempt_shared(ticket, lock);
    }
    answer_told(ticket.attempt(lock, Mode::Write))
}

/// Begins to take a lock. 0: steps follow until it is held. 2, 4 and 5 as `shfl_seat_attempt`, and then nothing changes.
#[unsafe(no_mangle)]
pub extern "C" fn shfl_seat_acquire(seat: &mut ShflSeat, lock: u32, shared: bool) -> u8
    ghost x: { TicketModel }
    requires open { seat.old.tickets ≡ x ∷ [] }
    ensures { (y : TicketModel) × (seat.new.tickets ≡ y ∷ [])
        × TellsAcquire lock (mode_of shared) x result y }
{
    let ticket = ticket_of(seat);
    answer_told(ticket.acquire(lock, mode_of(shared)))
}

/// Makes one step; `choice` answers what it asks. 0: there was none to make, and nothing changes. 1: the seat went on. 2: it looks at
/// the same word again. 3: it ended a round of the shuffler.
#[unsafe(no_mangle)]
pub extern "C" fn shfl_seat_step(seat: &mut ShflSeat, choice: bool) -> u8
    ghost x: { TicketModel }
    requires open { seat.old.tickets ≡ x ∷ [] }
    ensures { (y : TicketModel) × (seat.new.tickets ≡ y ∷ []) × TellsStep choice x result y }
{
    let ticket = ticket_of(seat);
    progress_told(ticket.step(choice))
}

/// Gives a lock back, by one operation. 0: it is given back. 3: the seat doesn't hold it. 4: there is no such lock, or the seat has a
/// step to make. Unless the answer is 0 nothing changes.
#[unsafe(no_mangle)]
pub extern "C" fn shfl_seat_release(seat: &mut ShflSeat, lock: u32) -> u8
    ghost x: { TicketModel }
    requires open { seat.old.tickets ≡ x ∷ [] }
    ensures { (y : TicketModel) × (seat.new.tickets ≡ y ∷ []) × TellsRelease lock x result y }
{
    let ticket = ticket_of(seat);
    answer_told(ticket.release(lock))
}

/// Disables stealing at a lock, beside the steps. False where there is no such lock.
#[unsafe(no_mangle)]
pub extern "C" fn shfl_seat_disable_stealing(seat: &mut ShflSeat, lock: u32) -> bool
    ghost x: { TicketModel }
    requires open { seat.old.tickets ≡ x ∷ [] }
    ensures same { seat.new.tickets ≡ seat.old.tickets }
{
    let ticket = ticket_of(seat);
    ticket.disable_stealing(lock)
}

/// Gives the thread the attributes of this word. False, and nothing changes, where the seat has a step to make.
#[unsafe(no_mangle)]
pub extern "C" fn shfl_seat_set_attr(seat: &mut ShflSeat, word: u64) -> bool
    ghost x: { TicketModel }
    requires open { seat.old.tickets ≡ x ∷ [] }
    ensures moving { plan.moving x.seat.own ≡ true
        → (result ≡ false) × (seat.new.tickets ≡ x ∷ []) }
    ensures rests { plan.moving x.seat.own ≡ false
        → (result ≡ true) × (seat.new.tickets ≡ record x { attr = attr_of word } ∷ []) }
{
    let ticket = ticket_of(seat);
    ticket.set_attr(Attr::unpack(word))
}

/// How the seat holds a lock: 0 not at all, 1 as a writer, 2 as a reader.
#[unsafe(no_mangle)]
pub extern "C" fn shfl_seat_hold(seat: &mut ShflSeat, lock: u32) -> u8
    ghost x: { TicketModel }
    requires open { seat.old.tickets ≡ x ∷ [] }
    ensures answer { result ≡ hold_told (mode_held lock x.seat.holds) }
    ensures same { seat.new.tickets ≡ seat.old.tickets }
{
    let ticket = ticket_of(seat);
    hold_told(ticket.hold(lock))
}

/// What the next step asks the policy.
#[unsafe(no_mangle)]
pub extern "C" fn shfl_seat_ask(seat: &mut ShflSeat) -> ShflAsk
    ghost x: { TicketModel }
    requires open { seat.old.tickets ≡ x ∷ [] }
    ensures answer { result ≡ ask_told (waiting.ask x.seat.arena.rules x.seat.own) }
    ensures same { seat.new.tickets ≡ seat.old.tickets }
{
    let ticket = ticket_of(seat);
    ask_told(ticket.ask())
}

/// Whom the next step may make ready or group, and so wake.
#[unsafe(no_mangle)]
pub extern "C" fn shfl_seat_watch(seat: &mut ShflSeat) -> ShflWatch
    ghost x: { TicketModel }
    requires open { seat.old.tickets ≡ x ∷ [] }
    ensures answer { result ≡ watch_told (waiting.watch_at x.seat.own.reg x.seat.own.phase) }
    ensures same { seat.new.tickets ≡ seat.old.tickets }
{
    let ticket = ticket_of(seat);
    watch_told(ticket.watch())
}
