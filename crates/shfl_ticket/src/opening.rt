//! The opening of a lock, with a ticket for each of its passes.
ghost use Rattle.std.specs.Prelude.{◌≡◌, ℕ, ◌<◌, ◌≤◌, length, map, vec_len, slice_get, slice_index, IfOk, None, Some, []};
ghost use Rattle.shfl_core.specs.Words.{most_passes};
ghost use Rattle.shfl_line.specs.Words.{attr_of, attr_word};
ghost use Rattle.shfl_table.specs.PassModel.{fresh_pass};
ghost use Rattle.shfl_ticket.specs.Tickets.{AreOpened, fresh_ticket};

use crate::boxes::shared;
use crate::ticket::{Share, Ticket};
use shfl_line::{Attr, Form, NoMemory};
use shfl_table::{Pass, open_with_sleepers};
use std::alloc::Global;
use std::sync::Arc;

// The attributes that these words hold.
fn attrs_of(alloc: Global, words: &[u64]) -> Result<Vec<Attr>, NoMemory>
    ensures { IfOk result (λ v. (vec_len v ≡ length words.now)
        × (map attr_word v.items ≡ words.now)) }
{
    let mut attrs = Vec::with_capacity(alloc, words.len())?;
    for word in words {
        attrs.push_reserved(Attr::unpack(*word));
    }
    Ok(attrs)
}

// The ticket of one pass.
fn ticket(share: &Arc<Share, Global>, k: usize, pass: Pass<()>) -> Result<Ticket, NoMemory>
    requires place { k < vec_len share.now.value.words.value }
    requires no_values { share.now.value.board.value.id.table.slots ≡ 0 }
    requires no_policy { share.now.value.policy ≡ None }
    requires fresh { pass ≡ fresh_pass [] share.now.value.board.value.id k }
    ensures { IfOk result (λ t. t ≡ fresh_ticket share.now.value.board.value.id k
        (attr_of (slice_index share.now.value.words.value.items k))) }
{
    Ok(Ticket::new(Arc::try_clone(share)?, pass))
}

// A ticket for each pass, in their order.
fn deal(
    alloc: Global,
    share: &Arc<Share, Global>,
    passes: Vec<Pass<()>>,
) -> Result<Vec<Ticket>, NoMemory>
    requires count { vec_len passes ≡ vec_len share.now.value.words.value }
    requires no_values { share.now.value.board.value.id.table.slots ≡ 0 }
    requires no_policy { share.now.value.policy ≡ None }
    requires fresh { (i : ℕ) → i < vec_len passes
        → slice_get passes.items i ≡ Some (fresh_pass [] share.now.value.board.value.id i) }
    ensures count { IfOk result (λ v. vec_len v ≡ vec_len share.now.value.words.value) }
    ensures fresh { IfOk result (λ v. (i : ℕ) → i < vec_len v → slice_get v.items i
        ≡ Some (fresh_ticket share.now.value.board.value.id i
        (attr_of (slice_index share.now.value.words.value.items i)))) }
{
    let mut tickets = Vec::with_capacity(alloc, passes.len())?;
    let mut k = 0;
    for pass in passes {
        tickets.push_reserved(ticket(share, k, pass)?);
        k += 1;
    }
    Ok(tickets)
}

/// A lock with nothing behind it, and a ticket for each of its passes, 1 to 65,535, in order. Each word has the attributes of a pass. `limit`
/// bounds a batch. A lock of 64 passes takes less than 12 KiB of memory: its callers sleep, where they do, in places of their own.
pub fn open(alloc: Global, words: &[u64], form: Form, limit: u16) -> Result<Vec<Ticket>, NoMemory>
    requires some { 0 < length words.now }
    requires few { length words.now ≤ most_passes }
    requires limited { (0 < limit) × (limit ≤ 1024) }
    ensures { IfOk result (λ v.
        AreOpened (record { limit = limit; form = form }) words.now v.items) }
{
    let attrs = attrs_of(alloc, words)?;
    let (board, passes) = open_with_sleepers(
        alloc,
        attrs.as_slice(),
        form,
        limit,
        Vec::new(alloc),
        0,
    )?;
    let share = Share {
        board: shared(alloc, board)?,
        words: shared(alloc, Vec::from_slice(alloc, words)?)?,
        policy: None,
    };
    deal(alloc, &shared(alloc, share)?, passes)
}
