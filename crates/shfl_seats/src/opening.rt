//! The opening of an arena, with a ticket for each of its seats.
ghost use Rattle.std.specs.Prelude.{◌≡◌, ℕ, ◌<◌, ◌≤◌, IfOk, Some, vec_len, slice_get};
ghost use Rattle.shfl_core.specs.Words.{most_passes};
ghost use Rattle.shfl_arena.specs.SeatModels.{fresh_seat};
ghost use Rattle.shfl_seats.specs.Tickets.{AreOpened, fresh_ticket};

use crate::kept::KeptSeat;
use crate::ticket::{SeatTicket, Share, no_attributes};
use shfl_arena::{Arena, ArenaSeat, Shape};
use shfl_line::{Form, NoMemory};
use shfl_ticket::shared;
use std::alloc::Global;
use std::sync::Arc;

// The ticket of one seat.
fn ticket(
    alloc: Global,
    share: &Arc<Share, Global>,
    k: usize,
    seat: ArenaSeat<()>,
) -> Result<SeatTicket, NoMemory>
    requires no_values { share.now.value.arena.id.table.slots ≡ 0 }
    requires locks { share.now.value.arena.id.shape.locks ≡ share.now.value.locks }
    requires fresh { seat ≡ fresh_seat share.now.value.arena.id k }
    ensures { IfOk result (λ t. t ≡ fresh_ticket share.now.value.arena.id k) }
{
    Ok(SeatTicket::new(Arc::try_clone(share)?, KeptSeat::new(alloc, seat)))
}

// A ticket for each seat, in their order.
fn deal(
    alloc: Global,
    share: &Arc<Share, Global>,
    seats: Vec<ArenaSeat<()>>,
) -> Result<Vec<SeatTicket>, NoMemory>
    requires no_values { share.now.value.arena.id.table.slots ≡ 0 }
    requires locks { share.now.value.arena.id.shape.locks ≡ share.now.value.locks }
    requires fresh { (i : ℕ) → i < vec_len seats
        → slice_get seats.items i ≡ Some (fresh_seat share.now.value.arena.id i) }
    ensures count { IfOk result (λ v. vec_len v ≡ vec_len seats) }
    ensures fresh { IfOk result (λ v. (i : ℕ) → i < vec_len v
        → slice_get v.items i ≡ Some (fresh_ticket share.now.value.arena.id i)) }
{
    let mut tickets = Vec::with_capacity(alloc, seats.len())?;
    let mut k = 0;
    for seat in seats {
        tickets.push_reserved(ticket(alloc, share, k, seat)?);
        k += 1;
    }
    Ok(tickets)
}

/// An arena with nothing behind its locks, and a ticket for each of its seats, in order, with no attributes. A lock takes 16 bytes, or,
/// spread, 128; a seat takes 80 for its words, and its ticket.
pub fn open(
    alloc: Global,
    shape: Shape,
    threads: u32,
    form: Form,
    limit: u16,
) -> Result<Vec<SeatTicket>, NoMemory>
    requires locks { (0 < shape.locks) × (shape.locks ≤ 16777216) }
    requires threads { (0 < threads) × (threads ≤ most_passes) }
    requires limited { (0 < limit) × (limit ≤ 1024) }
    ensures { IfOk result (λ v.
        AreOpened shape (record { limit = limit; form = form }) threads v.items) }
{
    let attrs = vec![in alloc; no_attributes(); threads as usize]?;
    let none = Vec::new(alloc);
    let (arena, seats) = Arena::open_with_sleepers(
        alloc,
        shape,
        attrs.as_slice(),
        form,
        limit,
        none,
        0,
    )?;
    let locks = shape.locks;
    let share = shared(alloc, Share { arena, locks })?;
    deal(alloc, &share, seats)
}
