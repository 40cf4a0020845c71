//! What C does with a pass.
ghost use Rattle.std.specs.Prelude.{◌≡◌, [], ◌∷◌, ◌+◌, ℕ, true, false, not, ◌&&◌};
ghost use Rattle.shfl_core.specs.Plan as plan;
ghost use Rattle.shfl_core.specs.Waiting as waiting;
ghost use Rattle.shfl_core.specs.Waiting.{MayUse};
ghost use Rattle.shfl_line.specs.declared.events.Mode.TheVariants.{Write, Read};
ghost use Rattle.shfl_table.specs.PassSteps.{Refuses};
ghost use Rattle.shfl_table.specs.Outcomes.{waits_at_head};
ghost use Rattle.shfl_ticket.specs.Tickets.{TicketModel, TakesStep, acquires, releases, wins, loses};
ghost use Rattle.shfl_ticket.specs.Told.{ToldAdvance, ask_told, watch_told};

use crate::handle::{ShflPass, taken};
use shfl_line::Mode;
use shfl_ticket::{ShflAsk, ShflWatch, ask_told, outcome_told, watch_told};
use std::alloc::Global;

/// Begins to take the lock as a writer. False, and nothing changes, unless the pass is idle.
#[unsafe(no_mangle)]
pub extern "C" fn shfl_acquire(alloc: Global, pass: &mut ShflPass) -> bool
    ghost x: { TicketModel }
    requires open { pass.old.tickets ≡ x ∷ [] }
    ensures answer { result ≡ plan.is_idle x.own.phase }
    ensures after { pass.new.tickets ≡ acquires Write x ∷ [] }
{
    let mut ticket = taken(alloc, pass);
    let idle = ticket.acquire(Mode::Write);
    *pass = ShflPass::new(ticket);
    idle
}

/// Begins to take the lock as a reader, in a form that has readers. False, and nothing changes, unless the pass is idle.
#[unsafe(no_mangle)]
pub extern "C" fn shfl_acquire_shared(alloc: Global, pass: &mut ShflPass) -> bool
    ghost x: { TicketModel }
    requires open { pass.old.tickets ≡ x ∷ [] }
    requires shares { MayUse x.board.rules.form Read }
    ensures answer { result ≡ plan.is_idle x.own.phase }
    ensures after { pass.new.tickets ≡ acquires Read x ∷ [] }
{
    let mut ticket = taken(alloc, pass);
    let idle = ticket.acquire(Mode::Read);
    *pass = ShflPass::new(ticket);
    idle
}

/// Takes the lock as a writer by one operation, or not at all, which is false. A pass that isn't idle, as one that holds the lock, is
/// refused, and stays as it is.
#[unsafe(no_mangle)]
pub extern "C" fn shfl_attempt(alloc: Global, pass: &mut ShflPass) -> bool
    ghost x: { TicketModel }
    requires open { pass.old.tickets ≡ x ∷ [] }
    ensures misused { plan.is_idle x.own.phase ≡ false
        → (result ≡ false) × (pass.new.tickets ≡ x ∷ []) }
    ensures ok { result ≡ true → pass.new.tickets ≡ wins Write x ∷ [] }
    ensures err { plan.is_idle x.own.phase ≡ true → result ≡ false → (word : ℕ)
        × Refuses Write word × (pass.new.tickets ≡ loses Write word x ∷ []) }
{
    let mut ticket = taken(alloc, pass);
    let won = ticket.attempt(Mode::Write);
    *pass = ShflPass::new(ticket);
    won
}

/// Takes the lock as a reader, in a form that has readers, by one operation; or takes its count back by a second one, which is false. A
/// pass that isn't idle is refused, and stays as it is.
#[unsafe(no_mangle)]
pub extern "C" fn shfl_attempt_shared(alloc: Global, pass: &mut ShflPass) -> bool
    ghost x: { TicketModel }
    requires open { pass.old.tickets ≡ x ∷ [] }
    requires shares { MayUse x.board.rules.form Read }
    ensures misused { plan.is_idle x.own.phase ≡ false
        → (result ≡ false) × (pass.new.tickets ≡ x ∷ []) }
    ensures ok { result ≡ true → pass.new.tickets ≡ wins Read x ∷ [] }
    ensures err { plan.is_idle x.own.phase ≡ true → result ≡ false → (word : ℕ)
        × Refuses Read word × (pass.new.tickets ≡ loses Read word x ∷ []) }
{
    let mut ticket = taken(alloc, pass);
    let won = ticket.attempt(Mode::Read);
    *pass = ShflPass::new(ticket);
    won
}

/// Makes one step; `choice` answers what it asks. False, and nothing changes, where the pass has no step to make.
#[unsafe(no_mangle)]
pub extern "C" fn shfl_step(alloc: Global, pass: &mut ShflPass, choice: bool) -> bool
    ghost x: { TicketModel }
    requires open { pass.old.tickets ≡ x ∷ [] }
    ensures moving { result ≡ plan.moving x.own }
    ensures still { result ≡ false → pass.new.tickets ≡ x ∷ [] }
    ensures row { result ≡ true
        → (y : TicketModel) × (pass.new.tickets ≡ y ∷ []) × TakesStep choice x y }
{
    let mut ticket = taken(alloc, pass);
    let moved = ticket.step(choice);
    *pass = ShflPass::new(ticket);
    moved
}

/// Makes one step as `shfl_step` does, and tells what came of it: 0 there was none to make, 1 the pass went on, 2 it looked in vain, 3
/// it looked in vain at the queue's head and found stealing enabled, 4 it ended a round that moved nobody into the batch.
#[unsafe(no_mangle)]
pub extern "C" fn shfl_advance(alloc: Global, pass: &mut ShflPass, choice: bool) -> u8
    ghost x: { TicketModel }
    requires open { pass.old.tickets ≡ x ∷ [] }
    ensures resting { plan.moving x.own ≡ false
        → (result ≡ 0) × (pass.new.tickets ≡ x ∷ []) }
    ensures row { plan.moving x.own ≡ true
        → (y : TicketModel) × (pass.new.tickets ≡ y ∷ []) × ToldAdvance choice x y result }
{
    let mut ticket = taken(alloc, pass);
    let outcome = outcome_told(ticket.advance(choice));
    *pass = ShflPass::new(ticket);
    outcome
}

/// Disables stealing again, for a pass that waits at the queue's head and found it enabled. False, and nothing changes, for a pass that
/// doesn't wait at the queue's head.
#[unsafe(no_mangle)]
pub extern "C" fn shfl_disable_stealing(alloc: Global, pass: &mut ShflPass) -> bool
    ghost x: { TicketModel }
    requires open { pass.old.tickets ≡ x ∷ [] }
    ensures answer { result ≡ waits_at_head x.own }
    ensures refused { result ≡ false → pass.new.tickets ≡ x ∷ [] }
    ensures made { result ≡ true
        → pass.new.tickets ≡ record x { steps_taken = x.steps_taken + 1 } ∷ [] }
{
    let mut ticket = taken(alloc, pass);
    let made = ticket.disable_stealing().is_some();
    *pass = ShflPass::new(ticket);
    made
}

/// Begins to free the lock. False, and nothing changes, unless the pass holds the lock and owes no step.
#[unsafe(no_mangle)]
pub extern "C" fn shfl_release(alloc: Global, pass: &mut ShflPass) -> bool
    ghost x: { TicketModel }
    requires open { pass.old.tickets ≡ x ∷ [] }
    ensures answer { result ≡ plan.is_resting x.own }
    ensures after { pass.new.tickets ≡ releases x ∷ [] }
{
    let mut ticket = taken(alloc, pass);
    let resting = ticket.release();
    *pass = ShflPass::new(ticket);
    resting
}

/// Acquires as a writer and makes the first step. True where the pass then holds the lock and owes no step.
#[unsafe(no_mangle)]
pub extern "C" fn shfl_enter(alloc: Global, pass: &mut ShflPass) -> bool
    ghost x: { TicketModel }
    requires open { pass.old.tickets ≡ x ∷ [] }
    requires idle { plan.is_idle x.own.phase ≡ true }
    ensures after { (y : TicketModel) × (pass.new.tickets ≡ y ∷ [])
        × TakesStep false (acquires Write x) y
        × (result ≡ (plan.is_held y.own.phase && not (plan.moving y.own))) }
{
    let mut ticket = taken(alloc, pass);
    let holds = ticket.enter(Mode::Write);
    *pass = ShflPass::new(ticket);
    holds
}

/// Releases and makes the first step. True where steps are left.
#[unsafe(no_mangle)]
pub extern "C" fn shfl_leave(alloc: Global, pass: &mut ShflPass) -> bool
    ghost x: { TicketModel }
    requires open { pass.old.tickets ≡ x ∷ [] }
    requires rests { plan.is_resting x.own ≡ true }
    ensures after { (y : TicketModel) × (pass.new.tickets ≡ y ∷ [])
        × TakesStep false (releases x) y × (result ≡ plan.moving y.own) }
{
    let mut ticket = taken(alloc, pass);
    let left = ticket.leave();
    *pass = ShflPass::new(ticket);
    left
}

/// What the next step asks the policy.
#[unsafe(no_mangle)]
pub extern "C" fn shfl_ask(alloc: Global, pass: &mut ShflPass) -> ShflAsk
    ghost x: { TicketModel }
    requires open { pass.old.tickets ≡ x ∷ [] }
    ensures answer { result ≡ ask_told (waiting.ask x.board.rules x.own) }
    ensures same { pass.new.tickets ≡ pass.old.tickets }
{
    let ticket = taken(alloc, pass);
    let asked = ask_told(ticket.ask());
    *pass = ShflPass::new(ticket);
    asked
}

/// Whom the next step may make ready or group, and so wake.
#[unsafe(no_mangle)]
pub extern "C" fn shfl_watch(alloc: Global, pass: &mut ShflPass) -> ShflWatch
    ghost x: { TicketModel }
    requires open { pass.old.tickets ≡ x ∷ [] }
    ensures answer { result ≡ watch_told (waiting.watch_at x.own.reg x.own.phase) }
    ensures same { pass.new.tickets ≡ pass.old.tickets }
{
    let ticket = taken(alloc, pass);
    let watched = watch_told(ticket.watch());
    *pass = ShflPass::new(ticket);
    watched
}

/// Whether the pass holds the lock.
#[unsafe(no_mangle)]
pub extern "C" fn shfl_held(alloc: Global, pass: &mut ShflPass) -> bool
    ghost x: { TicketModel }
    requires open { pass.old.tickets ≡ x ∷ [] }
    ensures answer { result ≡ plan.is_held x.own.phase }
    ensures same { pass.new.tickets ≡ pass.old.tickets }
{
    let ticket = taken(alloc, pass);
    let held = ticket.held();
    *pass = ShflPass::new(ticket);
    held
}

/// Whether the pass has a step to make.
#[unsafe(no_mangle)]
pub extern "C" fn shfl_moving(alloc: Global, pass: &mut ShflPass) -> bool
    ghost x: { TicketModel }
    requires open { pass.old.tickets ≡ x ∷ [] }
    ensures answer { result ≡ plan.moving x.own }
    ensures same { pass.new.tickets ≡ pass.old.tickets }
{
    let ticket = taken(alloc, pass);
    let moving = ticket.moving();
    *pass = ShflPass::new(ticket);
    moving
}
