//! A lock is opened, and its passes are closed.
ghost use Rattle.std.specs.Prelude.{◌≡◌, [], ◌∷◌, true, false, ◌<◌, ◌≤◌, length, map, IfOk};
ghost use Rattle.shfl_core.specs.Words.{most_passes};
ghost use Rattle.shfl_ticket.specs.Tickets.{TicketModel};
ghost use Rattle.shfl_ticket.specs.Told.{form_numbered};
ghost use Rattle.shfl_c.specs.Opened.{HoldPasses, tickets_of};

use crate::handle::{ShflPass, taken};
use shfl_line::NoMemory;
use shfl_ticket::{Ticket, boxed_each, form_numbered, open};
use std::alloc::Global;

// A handle for each of the tickets, in order.
fn handles_of(alloc: Global, tickets: Vec<Box<Ticket, Global>>) -> Result<Vec<ShflPass>, NoMemory>
    ensures { IfOk result (λ v.
        tickets_of v.items ≡ map (λ b. b.value ∷ []) tickets.items) }
{
    let mut handles = Vec::with_capacity(alloc, tickets.len())?;
    for ticket in tickets {
        handles.push_reserved(ShflPass::new(ticket));
    }
    Ok(handles)
}

// The handles of a lock that is opened.
fn opened(alloc: Global, attrs: &[u64], form: u8, limit: u16) -> Result<Vec<ShflPass>, NoMemory>
    requires some { 0 < length attrs.now }
    requires few { length attrs.now ≤ most_passes }
    requires form { form < 4 }
    requires limited { (0 < limit) × (limit ≤ 1024) }
    ensures { IfOk result (λ v.
        HoldPasses (record { limit = limit; form = form_numbered form }) attrs.now v.items) }
{
    let tickets = open(alloc, attrs, form_numbered(form), limit)?;
    handles_of(alloc, boxed_each(alloc, tickets)?)
}

/// Opens a lock with a pass for each of these attributes, one in each handle, in order. False, where there is no memory, and then
/// each handle is as it was.
#[unsafe(no_mangle)]
pub extern "C" fn shfl_open(
    alloc: Global,
    attrs: &[u64],
    form: u8,
    limit: u16,
    passes: &mut [ShflPass],
) -> bool
    requires some { 0 < length attrs.now }
    requires few { length attrs.now ≤ most_passes }
    requires form { form < 4 }
    requires limited { (0 < limit) × (limit ≤ 1024) }
    requires room { length passes.old ≡ length attrs.now }
    requires zero { tickets_of passes.old ≡ map (λ _. []) passes.old }
    ensures opened { result ≡ true → HoldPasses
        (record { limit = limit; form = form_numbered form }) attrs.now passes.new }
    ensures no_memory { result ≡ false → passes.new ≡ passes.old }
{
    match opened(alloc, attrs, form, limit) {
        Ok(mut handles) => {
            passes.swap_with_slice(handles.as_mut_slice());
            true
        }
        Err(_) => false,
    }
}

/// Gives a pass back. The last one of a lock takes the lock with it.
#[unsafe(no_mangle)]
pub extern "C" fn shfl_close(alloc: Global, pass: &mut ShflPass)
    ghost x: { TicketModel }
    requires open { pass.old.tickets ≡ x ∷ [] }
    ensures { pass.new.tickets ≡ [] }
{
    drop(taken(alloc, pass));
}
