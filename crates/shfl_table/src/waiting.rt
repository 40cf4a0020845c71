//! The loop in which a pass waits for the lock.
ghost use Rattle.std.specs.Prelude.{◌≡◌, ◌≢◌, ◌+◌, ℕ, Bool, true, false, List, [], ◌∷◌, ◌++◌, length, map, Some};
ghost use Rattle.shfl_line.specs.Policies.{Adds};
ghost use Rattle.shfl_core.specs.Asking.{IsOpenInRounds, end_told, is_last_of_round, opens_round, question_told, step_told};
ghost use Rattle.shfl_core.specs.Plan as plan;
ghost use Rattle.shfl_core.specs.Waiting.{MayUse};
ghost use Rattle.shfl_table.specs.Histories.{common_history};
ghost use Rattle.shfl_table.specs.PassModel.{AreIn};
ghost use Rattle.shfl_table.specs.PassSteps.{TakesStep};
ghost use Rattle.shfl_table.specs.Places.{place_count};
ghost use Rattle.shfl_table.specs.Queueing.{attempts_before};
ghost use Rattle.shfl_table.specs.declared.outcomes.Outcome.TheVariants.{InVainOpen};
ghost use Rattle.shfl_table.specs.declared.queueing.Queueing.TheVariants.{ByPolicy};
ghost use Rattle.shfl_table.specs.Waits.{AsksInRounds, WaitsFor, as_idle};

use crate::board::SharedBoard;
use crate::kept::Kept;
use crate::outcomes::Outcome;
use crate::passes::Pass;
use crate::pausing::pause_after;
use crate::queueing::{Queueing, attempts_before};
use crate::trying::try_first;
use shfl_core::{Ask, Nap, Phase};
use shfl_line::{Attr, Chooser, Mode};
use std::sync::Wait;
use syn_outer::{Gate, Point};
use waiter_sleep::Pauses;

// The policy's answer to what the next step asks. The first question of a round opens it.
fn answer<C: Chooser, Rt: Wait>(rt: &Rt, chooser: &mut C, anchor: &Attr, ask: Ask) -> bool
    ensures home { C.home chooser.new ≡ C.home chooser.old }
    ensures in_round { opens_round ask ≡ false → C.in_round chooser.new ≡ C.in_round chooser.old }
    ensures told { Adds (C.told chooser.old) (C.told chooser.new)
        (question_told anchor.now ask result) }
{
    match ask {
        Ask::Nothing => false,
        Ask::Skip { batch } => {
            chooser.begin(rt);
            chooser.skip(anchor, batch)
        }
        Ask::Should { waiter, batch } => chooser.should(anchor, &waiter, batch),
    }
}

// Closes a round whose last step this was.
fn close_round<C: Chooser>(chooser: &mut C, ended: bool)
    ensures home { C.home chooser.new ≡ C.home chooser.old }
    ensures ended { ended ≡ true → C.in_round chooser.new ≡ false }
    ensures going_on { ended ≡ false → C.in_round chooser.new ≡ C.in_round chooser.old }
    ensures told { Adds (C.told chooser.old) (C.told chooser.new) (end_told ended) }
{
    if ended {
        chooser.end();
    }
}

// Whether the next step ends a round.
fn ends_round(phase: Phase, nap: Nap) -> bool
    ensures { result ≡ is_last_of_round phase nap }
{
    matches!(nap, Nap::Awake) && matches!(phase, Phase::Give)
}

// Tells the gate where the pass has just joined the queue, or a round of it has ended.
fn tell_gate<G: Gate, Rt: Wait>(rt: &Rt, gate: &G, worker: u32, before: Phase, nap: Nap) {
    let joined = matches!(before, Phase::Close | Phase::Link | Phase::Give);
    if joined && matches!(nap, Nap::Awake) {
        gate.at(rt, worker, Point::Queued);
    }
}

// Sleeps where the wakeup flag was looked for and not found, and wakes the pass whose flag was set.
fn park_or_wake<V: Kept + Drop, G: Gate, Rt: Wait>(
    rt: &Rt,
    board: &SharedBoard<V>,
    pass: &Pass<V>,
    before: Nap,
    gate: &G,
)
    requires board { pass.now.board ≡ board.now.id }
{
    match before {
        Nap::Hear => {
            if matches!(pass.nap(), Nap::Hear) {
                gate.at(rt, pass.number(), Point::GivesWay);
                pass.sleep(rt, board);
            }
        }
        Nap::Ring { whom } => pass.wake(rt, board, whom),
        Nap::Awake | Nap::Doze | Nap::Rouse => {}
    }
}

// Wakes the pass that the step has made ready, or has given the shuffler's flag, where it sleeps, and the head, which a reader's count
// that was taken back may have kept out; and notes who stands behind whom.
fn rouse_other<V: Kept + Drop>(board: &SharedBoard<V>, before: Phase, nap: Nap, pass: &Pass<V>) {
    if !matches!(nap, Nap::Awake) {
        return;
    }
    let reg = &pass.own.reg;
    let sleepers = &board.sleepers;
    match before {
        Phase::Init => sleepers.stands_last(reg.me),
        Phase::Link => sleepers.stands_before(reg.before, reg.me),
        Phase::Place => {
            sleepers.stands_before(reg.prev, reg.after);
            sleepers.stands_before(reg.cand, reg.first);
            sleepers.stands_before(reg.last, reg.cand);
        }
        Phase::Ready => sleepers.rouse_heir(&board.front, reg.heir),
        // who keeps the flag is awake, and must not end its own next sleep
        Phase::Give => {
            if reg.last != reg.me {
                let _ = sleepers.rouse(reg.last);
            }
        }
        Phase::Uncount => sleepers.rouse_head(&board.front),
        _ => {}
    }
}

// One step, with what goes round it, and what came of it.
fn step_on<V: Kept + Drop, C: Chooser, G: Gate, Rt: Wait>(
    rt: &Rt,
    board: &SharedBoard<V>,
    pass: &mut Pass<V>,
    anchor: &Attr,
    chooser: &mut C,
    gate: &G,
) -> Outcome
    requires board { pass.old.board ≡ board.now.id }
    requires moving { plan.moving pass.old.own ≡ true }
    ensures home { C.home chooser.new ≡ C.home chooser.old }
    ensures in_round { IsOpenInRounds (C.in_round chooser.old) pass.old.own
        → IsOpenInRounds (C.in_round chooser.new) pass.new.own }
    ensures row { (choice : Bool)
        × TakesStep V.initial_state V.history pass.old choice pass.new
        × Adds (C.told chooser.old) (C.told chooser.new)
        (step_told anchor.now pass.old.board.rules pass.old.own choice) }
{
    let before = pass.phase();
    let nap = pass.nap();
    let ask = pass.ask();
    let choice = answer(rt, chooser, anchor, ask);
    let outcome = pass.advance(board, choice);
    close_round(chooser, ends_round(before, nap));
    tell_gate(rt, gate, pass.number(), before, nap);
    rouse_other(board, before, nap, pass);
    park_or_wake(rt, board, pass, nap, gate);
    outcome
}

// Disables stealing again where the queue's head found it enabled.
fn keep_disabled<V: Kept + Drop>(board: &SharedBoard<V>, pass: &mut Pass<V>, outcome: Outcome)
    requires board { pass.old.board ≡ board.now.id }
    ensures same { outcome ≢ InVainOpen → pass.new ≡ pass.old }
    ensures disabled { (n : ℕ) × (more : List ℕ)
        × (pass.new ≡ record pass.old { steps_taken = n; found = pass.old.found ++ more }) }
{
    if matches!(outcome, Outcome::InVainOpen) {
        let _ = pass.disable_stealing(board);
    }
}

/// Takes the lock in a mode, and waits until the pass holds it and owes no step. `queueing` says how often it tries at most before it joins the
/// queue, and it may queue sooner; while it tries it asks nothing. The chooser answers what the steps ask: it is opened before a round's first question, and
/// closed after the round's last step. `anchor` has the attributes of the pass. The gate is told when the pass has joined the queue,
/// after each round, and before it gives its processor away. A step that looked in vain is followed by a pause, and no other but the last of a round that moved nobody: the
/// pass spins, and then sleeps until it is made ready, or finds the lock freed, or for a while.
pub fn wait_by<V: Kept + Drop, C: Chooser, G: Gate, Rt: Wait>(
    rt: &Rt,
    board: &SharedBoard<V>,
    pass: &mut Pass<V>,
    mode: Mode,
    queueing: Queueing,
    anchor: &Attr,
    chooser: &mut C,
    gate: &G,
)
    requires board { pass.old.board ≡ board.now.id }
    requires mode { MayUse pass.old.board.rules.form mode }
    requires idle { (plan.is_idle pass.old.own.phase ≡ true) × (pass.old.values ≡ []) }
    ensures home { C.home chooser.new ≡ C.home chooser.old }
    ensures in_round { C.in_round chooser.old ≡ false → C.in_round chooser.new ≡ false }
    ensures holds { plan.is_resting pass.new.own ≡ true }
    ensures waited { WaitsFor V.initial_state V.history
        (attempts_before queueing (C.moves_waiters chooser.old)) mode pass.old pass.new }
    ensures within { AreIn V.history pass.new.history pass.new.values }
    ensures places { length pass.new.values
        ≡ place_count (Some mode) pass.old.own.reg.me pass.old.board.table.slots }
    ensures asked { AsksInRounds anchor.now pass.old.decisions pass.new.decisions
        (C.told chooser.old) (C.told chooser.new) }
{
    let attempts = attempts_before(queueing, chooser.may_move_waiters());
    if try_first(rt, board, pass, mode, attempts, gate) {
        return;
    }
    board.waiter(pass.number()).queue(rt);
    let _ = pass.acquire(mode);
    let mut pauses = Pauses::begin(&board.waiter(pass.number()));
    for _ in rt.forever() {
        if !pass.moving() {
            pauses.end(&board.waiter(pass.number()));
            board.waiter(pass.number()).end(rt, mode);
            return;
        }
        let outcome = step_on(rt, board, pass, anchor, chooser, gate);
        keep_disabled(board, pass, outcome);
        pause_after(rt, board, pass, &mut pauses, outcome, gate);
    }
    unreachable!()
}

/// Waits as `wait_by` does: it queues at once where the chooser may move waiters up, and else tries before, up to `MOST_ATTEMPTS` times.
pub fn wait_for<V: Kept + Drop, C: Chooser, G: Gate, Rt: Wait>(
    rt: &Rt,
    board: &SharedBoard<V>,
    pass: &mut Pass<V>,
    mode: Mode,
    anchor: &Attr,
    chooser: &mut C,
    gate: &G,
)
    requires board { pass.old.board ≡ board.now.id }
    requires mode { MayUse pass.old.board.rules.form mode }
    requires idle { (plan.is_idle pass.old.own.phase ≡ true) × (pass.old.values ≡ []) }
    ensures home { C.home chooser.new ≡ C.home chooser.old }
    ensures in_round { C.in_round chooser.old ≡ false → C.in_round chooser.new ≡ false }
    ensures holds { plan.is_resting pass.new.own ≡ true }
    ensures waited { WaitsFor V.initial_state V.history
        (attempts_before ByPolicy (C.moves_waiters chooser.old)) mode pass.old pass.new }
    ensures within { AreIn V.history pass.new.history pass.new.values }
    ensures places { length pass.new.values
        ≡ place_count (Some mode) pass.old.own.reg.me pass.old.board.table.slots }
    ensures asked { AsksInRounds anchor.now pass.old.decisions pass.new.decisions
        (C.told chooser.old) (C.told chooser.new) }
{
    wait_by(
        rt,
        board,
        pass,
        mode,
        Queueing::ByPolicy,
        anchor,
        chooser,
        gate,
    );
}

/// Frees the lock, with all values put back, and with one history, and wakes the queue's head where that sleeps, and those who come next, or one that sleeps
/// outside the queue.
#[inline(always)]
pub fn free<V: Kept + Drop>(board: &SharedBoard<V>, pass: &mut Pass<V>)
    requires board { pass.old.board ≡ board.now.id }
    requires holds { plan.is_resting pass.old.own ≡ true }
    requires within { AreIn V.history pass.old.history pass.old.values }
    ensures { (xs : List V) → pass.old.values ≡ map Some xs → (word : ℕ)
        × (pass.new ≡ record pass.old {
          own = as_idle pass.old.own;
          steps_taken = pass.old.steps_taken + 1;
          found = pass.old.found ++ word ∷ [];
          history = common_history V.history pass.old.history xs;
          values = [];
        }) }
{
    let _ = pass.release();
    let _ = pass.step(board, false);
    board.sleepers.after_free(&board.front, 0, pass.number());
}
