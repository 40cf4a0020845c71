//! The ticket of a handle, lent to a call. (The clause names the row of the handle, which the file that declares it can't import.)
ghost use Rattle.std.specs.Borrow.{sem};
ghost use Rattle.std.specs.Prelude.{◌≡◌, [], ◌∷◌};
ghost use Rattle.shfl_seats.specs.Tickets.{TicketModel};
ghost use Rattle.shfl_seats_c.specs.Lent.{LendsTicket};

use crate::handle::ShflSeat;
use shfl_seats::SeatTicket;

/// The ticket of an open handle, which has it back once the reference ends, as it is then.
pub fn ticket_of(seat: &mut ShflSeat) -> &mut SeatTicket
    requires open { (x : TicketModel) × (seat.old.tickets ≡ x ∷ []) }
    ensures* writes_back { sem 𝓛 (LendsTicket seat.entry result) }
    ensures value { seat.old.tickets ≡ result.now ∷ [] }
{
    unsafe { &mut *(seat.at as *mut SeatTicket) }
}
