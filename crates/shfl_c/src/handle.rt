//! A ticket as C holds it: one pointer.
ghost use Rattle.std.specs.Prelude.{◌≡◌, [], ◌∷◌, List};
ghost use Rattle.shfl_ticket.specs.Tickets.{TicketModel};
ghost use Rattle.shfl_c.specs.Handles.{ticket_owned, tickets_coded};

use boxed_handle::Handle;
use shfl_ticket::Ticket;
use std::alloc::Global;
use std::marker::Model;
use std::mem::replace;

/// A `Handle` of tickets without its type parameters, since a signature for C takes no type that has any.
#[repr(C)]
#[derive(Drop)]
pub struct ShflPass {
    at: *mut u8,
    alloc: Global,
    pub ghost tickets: { List TicketModel } by { tickets_coded },
}

impl Model for ShflPass {
    ghost also_owns = { λ p. ticket_owned p.alloc p.at p.tickets };
}

impl ShflPass {
    /// The handle of this ticket.
    pub fn new(ticket: Box<Ticket, Global>) -> ShflPass
        ensures { result.tickets ≡ ticket.value ∷ [] }
    {
        ShflPass::of_handle(Handle::new(ticket))
    }

    fn of_handle(handle: Handle<Ticket, Global>) -> ShflPass
        ensures { result.tickets ≡ handle.owned }
    {
        let Handle { at, alloc } = handle;
        ShflPass {
            at: at as *mut u8,
            alloc,
        }
    }

    fn into_handle(self) -> Handle<Ticket, Global>
        ensures { result.owned ≡ self.tickets }
    {
        let ShflPass { at, alloc } = self;
        Handle {
            at: at as *mut Ticket,
            alloc,
        }
    }
}

unsafe impl Send for ShflPass {}

/// The ticket of a handle, which is left empty.
pub fn taken(alloc: Global, pass: &mut ShflPass) -> Box<Ticket, Global>
    requires { (x : TicketModel) × (pass.old.tickets ≡ x ∷ []) }
    ensures value { pass.old.tickets ≡ result.value ∷ [] }
    ensures empty { pass.new.tickets ≡ [] }
{
    replace(pass, ShflPass::of_handle(Handle::blank(alloc)))
        .into_handle()
        .into_box()
}
