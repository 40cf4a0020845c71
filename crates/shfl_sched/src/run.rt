//! A schedule's run over a lock, event by event, and its report.
ghost use Rattle.std.specs.Prelude.{◌≡◌, ◌<◌, ◌≤◌, ℕ, length, IfErr, OnOk, OnErr, vec_capacity};
ghost use Rattle.shfl_core.specs.Runner as runner;
ghost use Rattle.shfl_core.specs.Runner.{opened};
ghost use Rattle.shfl_core.specs.ShownLine.{shown_line};
ghost use Rattle.shfl_core.specs.Worlds.{admitted};
ghost use Rattle.shfl_sched.specs.Choices.{answers};
ghost use Rattle.shfl_sched.specs.Schedules.{IsWithin, IsEventOf};
ghost use Rattle.shfl_sched.specs.Run.{is_step, rules_of, setup_of, choice_at, move_in, lock_after};
ghost use Rattle.shfl_sched.specs.Report.{line_report, heading_text};
ghost use Rattle.shfl_sched.specs.Handing.{Stops};
ghost use Rattle.syn_outer.specs.Bytes.{Took};

use crate::handing::{RunError, hand_on, make_room};
use crate::report::{RowTexts, push_heading, put_row, put_totals};
use crate::schedule::{Act, Event, Rule, Schedule};
use shfl_core::{Ask, Board};
use shfl_line::{Attr, Chooser, LineState, Mode};
use std::alloc::Global;
use syn_outer::Sink;

/// What the rule answers to what a pass with these attributes asks.
#[tactic(auto, unfolding(crate::specs::Choices::answers))]
fn answer(rule: &Rule, own: &Attr, ask: Ask) -> bool
    ensures { result ≡ answers rule.now own.now ask }
{
    let mut chooser = rule.chooser();
    match ask {
        Ask::Nothing => false,
        Ask::Skip { batch } => chooser.skip(own, batch),
        Ask::Should { waiter, batch } => chooser.should(own, &waiter, batch),
    }
}

/// The choice at the pass's next step.
fn choice<B: Board>(schedule: &Schedule, board: &B, pass: u32) -> bool
    requires declared { pass < length schedule.now.passes }
    requires passes { length (B.meaning board.now).world.passes ≡ length schedule.now.passes }
    requires rules { (B.meaning board.now).rules ≡ rules_of schedule.now }
    ensures { result ≡ choice_at (setup_of schedule.now) (B.meaning board.now).world pass }
{
    let own = &schedule.passes[pass as usize];
    answer(&schedule.rule, own, board.ask(pass))
}

/// Makes an event's move, where it is admitted.
#[tactic(auto, using(crate::proofs::RunSteps::moved_passes))]
fn make<B: Board>(schedule: &Schedule, board: &mut B, event: Event) -> bool
    requires event { IsEventOf schedule.now.form (length schedule.now.passes) event }
    requires passes { length (B.meaning board.old).world.passes ≡ length schedule.now.passes }
    requires rules { (B.meaning board.old).rules ≡ rules_of schedule.now }
    ensures answer { let w = (B.meaning board.old).world in
        result ≡ admitted w (move_in (setup_of schedule.now) w event) }
    ensures after { let w = (B.meaning board.old).world in B.meaning board.new
        ≡ runner.moved (B.meaning board.old) (move_in (setup_of schedule.now) w event) }
    ensures passes { length (B.meaning board.new).world.passes ≡ length schedule.now.passes }
{
    let pass = u32::from(event.pass);
    match event.act {
        Act::Write => board.acquire(pass, Mode::Write),
        Act::Read => board.acquire(pass, Mode::Read),
        Act::Free => board.release(pass),
        Act::Step => {
            let choice = choice(schedule, board, pass);
            board.step(pass, choice)
        }
    }
}

// Whether an act is a step. What a lock shows doesn't change where a pass begins to take it or to give it back.
fn is_step(act: Act) -> bool
    ensures { result ≡ is_step act }
{
    matches!(act, Act::Step)
}

/// Makes an event's move, and shows the lock again where that may have changed.
fn make_and_show<B: Board>(
    schedule: &Schedule,
    board: &mut B,
    event: Event,
    state: &mut LineState,
) -> bool
    requires event { IsEventOf schedule.now.form (length schedule.now.passes) event }
    requires passes { length (B.meaning board.old).world.passes ≡ length schedule.now.passes }
    requires rules { (B.meaning board.old).rules ≡ rules_of schedule.now }
    requires shown { state.old ≡ shown_line (B.meaning board.old).world }
    ensures answer { let w = (B.meaning board.old).world in
        result ≡ admitted w (move_in (setup_of schedule.now) w event) }
    ensures after { let w = (B.meaning board.old).world in B.meaning board.new
        ≡ runner.moved (B.meaning board.old) (move_in (setup_of schedule.now) w event) }
    ensures passes { length (B.meaning board.new).world.passes ≡ length schedule.now.passes }
    ensures shown { state.new ≡ shown_line (B.meaning board.new).world }
{
    let admitted = make(schedule, board, event);
    if admitted && is_step(event.act) {
        board.show(state);
    }
    admitted
}

// Room for a text that isn't handed on yet, and a row.
const ROOM: usize = 40_000;

// Runs the events on a lock at its opening that the state shows, behind a text that is the heading. It owns nothing: what it had to drop
// at each place where it may stop would make its proof long.
fn run_events<B: Board, W: Sink>(
    schedule: &Schedule,
    board: &mut B,
    out: &mut W,
    text: &mut Vec<u8>,
    state: &mut LineState,
    texts: &mut RowTexts,
) -> Result<(), RunError>
    requires within { IsWithin schedule.now }
    requires opened { B.meaning board.old ≡ opened (rules_of schedule.now) schedule.now.passes }
    requires heading { text.old.items ≡ heading_text schedule.now }
    requires room { 40000 ≤ vec_capacity text.old }
    requires shown { state.old ≡ shown_line (B.meaning board.old).world }
    ensures report { OnOk result
        (Took (W.held out.old) (W.held out.new) (line_report schedule.now)) }
    ensures stopped { IfErr result (λ e. Stops e (W.held out.old) (W.held out.new)
        (W.faults out.old) (W.faults out.new) (line_report schedule.now)) }
    ensures after { OnOk result (B.meaning board.new
        ≡ lock_after schedule.now (length schedule.now.events)) }
    ensures part { OnErr result ((n : ℕ) × (B.meaning board.new ≡ lock_after schedule.now n)) }
{
    let mut sent = 0;
    let mut yes: u32 = 0;
    let mut no: u32 = 0;
    for event in &schedule.events {
        make_room(text, &mut sent, out)?;
        let admitted = make_and_show(schedule, board, *event, state);
        put_row(
            text,
            schedule.form,
            yes + no + 1,
            *event,
            admitted,
            board,
            state,
            texts,
        );
        if admitted {
            yes += 1;
        } else {
            no += 1;
        }
    }
    make_room(text, &mut sent, out)?;
    put_totals(text, yes, no);
    hand_on(text, &mut sent, out)
}

/// Runs the events on a lock at its opening, and writes the line report in pieces. All memory that it needs is taken before the first
/// byte. It waits for nobody.
pub fn run_schedule<B: Board, W: Sink>(
    alloc: Global,
    schedule: &Schedule,
    board: &mut B,
    out: &mut W,
) -> Result<(), RunError>
    requires within { IsWithin schedule.now }
    requires opened { B.meaning board.old ≡ opened (rules_of schedule.now) schedule.now.passes }
    ensures report { OnOk result
        (Took (W.held out.old) (W.held out.new) (line_report schedule.now)) }
    // After want of memory nothing is written, after a fault of the sink a front of the report.
    ensures stopped { IfErr result (λ e. Stops e (W.held out.old) (W.held out.new)
        (W.faults out.old) (W.faults out.new) (line_report schedule.now)) }
    ensures after { OnOk result (B.meaning board.new
        ≡ lock_after schedule.now (length schedule.now.events)) }
    // After either the lock stands after some of the events, the first ones.
    ensures part { OnErr result ((n : ℕ) × (B.meaning board.new ≡ lock_after schedule.now n)) }
{
    let mut text = Vec::new(alloc);
    push_heading(&mut text, schedule)?;
    text.reserve(ROOM)?;
    let mut texts = RowTexts::open(alloc)?;
    let mut state = LineState::open(alloc, schedule.passes.len() as u32)?;
    board.show(&mut state);
    run_events(schedule, board, out, &mut text, &mut state, &mut texts)
}
