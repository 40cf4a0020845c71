//! A ticket as C holds it: one pointer.
ghost use Rattle.std.specs.Prelude.{◌≡◌, [], ◌∷◌, List};
ghost use Rattle.shfl_seats.specs.Tickets.{TicketModel};
ghost use Rattle.shfl_seats_c.specs.Handles.{ticket_owned, tickets_coded};

use boxed_handle::Handle;
use shfl_seats::SeatTicket;
use std::alloc::Global;
use std::marker::Model;
use std::mem::replace;

/// A `Handle` of tickets without its type parameters, since a signature for C takes no type that has any.
#[repr(C)]
#[derive(Drop)]
pub struct ShflSeat {
    pub(crate) at: *mut u8,
    alloc: Global,
    pub ghost tickets: { List TicketModel } by { tickets_coded },
}

impl Model for ShflSeat {
    ghost also_owns = { λ p. ticket_owned p.alloc p.at p.tickets };
}

impl ShflSeat {
    /// The handle of this ticket.
    pub fn new(ticket: Box<SeatTicket, Global>) -> ShflSeat
        ensures { result.tickets ≡ ticket.value ∷ [] }
    {
        ShflSeat::of_handle(Handle::new(ticket))
    }

    fn of_handle(handle: Handle<SeatTicket, Global>) -> ShflSeat
        ensures { result.tickets ≡ handle.owned }
    {
        let Handle { at, alloc } = handle;
        ShflSeat {
            at: at as *mut u8,
            alloc,
        }
    }

    fn into_handle(self) -> Handle<SeatTicket, Global>
        ensures { result.owned ≡ self.tickets }
    {
        let ShflSeat { at, alloc } = self;
        Handle {
            at: at as *mut SeatTicket,
            alloc,
        }
    }
}

unsafe impl Send for ShflSeat {}

/// The ticket of a handle, which is left empty.
pub fn taken(alloc: Global, pass: &mut ShflSeat) -> Box<SeatTicket, Global>
    requires { (x : TicketModel) × (pass.old.tickets ≡ x ∷ []) }
    ensures value { pass.old.tickets ≡ result.value ∷ [] }
    ensures empty { pass.new.tickets ≡ [] }
{
    replace(pass, ShflSeat::of_handle(Handle::blank(alloc)))
        .into_handle()
        .into_box()
}
