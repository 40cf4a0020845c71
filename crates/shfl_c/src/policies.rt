//! The policy of a pass.
ghost use Rattle.std.specs.Prelude.{◌≡◌, [], ◌∷◌, ◌<◌, ◌≤◌, Result, Ok, Err};
ghost use Rattle.shfl_core.specs.Waiting as waiting;
ghost use Rattle.shfl_ticket.specs.Tickets.{TicketModel, answer_to};
ghost use Rattle.shfl_ticket.specs.Attached.{source_of};
ghost use Rattle.shfl_ticket.specs.Told.{profile_numbered};
ghost use Rattle.shfl_c.specs.Verdicts.{IsVerdict};

use crate::handle::{ShflPass, taken};
use shfl_ticket::{ShflVerdict, profile_numbered, verdict_told};
use std::alloc::Global;

/// Attaches the policy of these two programs in place of the one before; no bytes are no program, which answers no. What it is
/// refused for is told, and then nothing changes. It may be called at any time between two calls with this pass.
#[unsafe(no_mangle)]
pub extern "C" fn shfl_attach(
    alloc: Global,
    pass: &mut ShflPass,
    profile: u8,
    should: &[u8],
    skip: &[u8],
) -> ShflVerdict
    ghost x: { TicketModel }
    requires open { pass.old.tickets ≡ x ∷ [] }
    requires profile { (0 < profile) × (profile ≤ 2) }
    ensures { (y : TicketModel) × (pass.new.tickets ≡ y ∷ [])
        × IsVerdict (profile_numbered profile) (source_of should.now skip.now) x result y }
{
    let mut ticket = taken(alloc, pass);
    let verdict = verdict_told(ticket.attach(alloc, profile_numbered(profile), should, skip));
    *pass = ShflPass::new(ticket);
    verdict
}

/// What the attached policy answers to what the next step asks; no, where nothing is asked or no policy is attached.
#[unsafe(no_mangle)]
pub extern "C" fn shfl_answer(alloc: Global, pass: &mut ShflPass) -> bool
    ghost x: { TicketModel }
    requires open { pass.old.tickets ≡ x ∷ [] }
    ensures answer { result ≡ answer_to x.policy x.attr (waiting.ask x.board.rules x.own) }
    ensures same { pass.new.tickets ≡ pass.old.tickets }
{
    let ticket = taken(alloc, pass);
    let answer = ticket.answer();
    *pass = ShflPass::new(ticket);
    answer
}
