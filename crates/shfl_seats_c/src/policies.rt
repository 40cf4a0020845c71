//! The policy of a seat.
ghost use Rattle.std.specs.Prelude.{◌≡◌, ◌≢◌, ◌↔◌, [], ◌∷◌, ◌<◌, ◌≤◌, true, false, None};
ghost use Rattle.shfl_core.specs.Waiting as waiting;
ghost use Rattle.shfl_seats.specs.Tickets.{TicketModel};
ghost use Rattle.shfl_ticket.specs.Attached.{source_of};
ghost use Rattle.shfl_ticket.specs.Tickets.{answer_to};
ghost use Rattle.shfl_ticket.specs.Told.{profile_numbered};
ghost use Rattle.shfl_seats_c.specs.Verdicts.{IsVerdict, no_such_profile};

use crate::handle::ShflSeat;
use crate::lent::ticket_of;
use shfl_ticket::{ShflVerdict, profile_numbered, verdict_told};
use std::alloc::Global;

// What C is told where it names a profile that isn't there.
fn no_such_profile() -> ShflVerdict
    ensures { result ≡ no_such_profile }
{
    ShflVerdict {
        slot: 0,
        fault: 254,
        hook: 0,
        register: 0,
    }
}

/// Attaches the policy of these two programs in place of the one before; no bytes are no program, which answers no. What it is
/// refused for is told, and then nothing changes; fault 254 is a profile other than 1 and 2. It may be called at any time between two
/// calls with this seat.
#[unsafe(no_mangle)]
pub extern "C" fn shfl_seat_attach(
    alloc: Global,
    seat: &mut ShflSeat,
    profile: u8,
    should: &[u8],
    skip: &[u8],
) -> ShflVerdict
    ghost x: { TicketModel }
    requires open { seat.old.tickets ≡ x ∷ [] }
    ensures bad { profile ≢ 1 → profile ≢ 2
        → (result ≡ no_such_profile) × (seat.new.tickets ≡ x ∷ []) }
    ensures verdict { 0 < profile → profile ≤ 2
        → (y : TicketModel) × (seat.new.tickets ≡ y ∷ [])
        × IsVerdict (profile_numbered profile) (source_of should.now skip.now) x result y }
{
    if profile == 0 || profile > 2 {
        return no_such_profile();
    }
    let ticket = ticket_of(seat);
    verdict_told(ticket.attach(alloc, profile_numbered(profile), should, skip))
}

/// No policy goes with the seat from now on.
#[unsafe(no_mangle)]
pub extern "C" fn shfl_seat_detach(seat: &mut ShflSeat)
    ghost x: { TicketModel }
    requires open { seat.old.tickets ≡ x ∷ [] }
    ensures { seat.new.tickets ≡ record x { policy = None } ∷ [] }
{
    ticket_of(seat).detach();
}

/// Goes over to the policy of another seat, which the two share from now on, or to none, if that has none. False, and nothing changes,
/// where so many share it that they can't be counted.
#[unsafe(no_mangle)]
pub extern "C" fn shfl_seat_follow(seat: &mut ShflSeat, other: &mut ShflSeat) -> bool
    ghost x: { TicketModel × TicketModel }
    requires open { seat.old.tickets ≡ x.0 ∷ [] }
    requires other { other.old.tickets ≡ x.1 ∷ [] }
    ensures ok { result ≡ true
        → seat.new.tickets ≡ record x.0 { policy = x.1.policy } ∷ [] }
    ensures refused { result ≡ false → seat.new.tickets ≡ x.0 ∷ [] }
    ensures same { other.new.tickets ≡ other.old.tickets }
{
    let followed = ticket_of(other);
    ticket_of(seat).follow(followed)
}

/// What the policy answers to what the next step asks; no, where nothing is asked or there is no policy.
#[unsafe(no_mangle)]
pub extern "C" fn shfl_seat_answer(seat: &mut ShflSeat) -> bool
    ghost x: { TicketModel }
    requires open { seat.old.tickets ≡ x ∷ [] }
    ensures answer { result ≡ answer_to x.policy x.attr
        (waiting.ask x.seat.arena.rules x.seat.own) }
    ensures same { seat.new.tickets ≡ seat.old.tickets }
{
    ticket_of(seat).answer()
}
