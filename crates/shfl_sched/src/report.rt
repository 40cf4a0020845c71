//! The lines of a line report, written behind what stands there; those of the run and the totals within the room.
ghost use Rattle.std.specs.Prelude.{◌≡◌, ◌≤◌, ◌++◌, [], true, None, length, codes, OnOk};
ghost use Rattle.shfl_core.specs.ShownLine.{shown_line};
ghost use Rattle.shfl_line.specs.declared.events.Role.TheVariants.{Nobody};
ghost use Rattle.shfl_sched.specs.ReportParts.{queue_text, hand_text, role_text};
ghost use Rattle.shfl_sched.specs.Report.{version_text, sizes_text, heading_text, event_text, state_text, asleep_text, row, totals_text};
ghost use Rattle.shfl_sched.specs.Room.{Puts};

use crate::parked_text::ParkedText;
use crate::queue_text::QueueText;
use crate::report_parts::{put_act, put_answer, put_hand, put_hold, put_role};
use crate::room::{put, put_number};
use crate::schedule::{Event, Schedule};
use bpf_isa::Profile;
use doc_text::push_decimal;
use lock_words::form_name;
use policy_text::push_version;
use shfl_core::Board;
use shfl_line::{Form, LineState, NoMemory, Role};
use std::alloc::{AllocError, Global};

/// What is kept from one row to the next.
#[derive(Drop)]
pub struct RowTexts {
    queue: QueueText,
    parked: ParkedText,
}

impl RowTexts {
    /// No row was written yet. No row takes memory.
    pub fn open(alloc: Global) -> Result<RowTexts, NoMemory> {
        Ok(RowTexts {
            queue: QueueText::open(alloc)?,
            parked: ParkedText::open(alloc)?,
        })
    }
}

#[tactic(auto, unfolding(crate::specs::Report::version_text))]
fn push_name(out: &mut Vec<u8>, version: u8, profile: Profile) -> Result<(), NoMemory>
    ensures { OnOk result (out.new.items ≡ out.old.items ++ version_text version profile) }
{
    out.extend_from_slice(b"shfl-line")?;
    match push_version(out, version, profile) {
        Ok(()) => Ok(()),
        Err(_) => Err(NoMemory),
    }
}

#[tactic(auto, unfolding(crate::specs::Report::sizes_text))]
fn push_sizes(out: &mut Vec<u8>, form: Form, limit: u16, passes: usize) -> Result<(), AllocError>
    ensures { OnOk result (out.new.items ≡ out.old.items ++ sizes_text form limit passes) }
{
    out.extend_from_slice(b" form ")?;
    out.extend_from_slice(form_name(form))?;
    out.extend_from_slice(b" limit ")?;
    push_decimal(out, u64::from(limit))?;
    out.extend_from_slice(b" passes ")?;
    push_decimal(out, passes as u64)?;
    out.extend_from_slice(b"\n")
}

/// How the lock is opened: its form, its largest batch number, and how many passes it has.
pub fn push_heading(out: &mut Vec<u8>, schedule: &Schedule) -> Result<(), NoMemory>
    ensures { OnOk result (out.new.items ≡ out.old.items ++ heading_text schedule.now) }
{
    push_name(out, schedule.version, schedule.profile)?;
    push_sizes(out, schedule.form, schedule.limit, schedule.passes.len())?;
    Ok(())
}

#[tactic(auto, unfolding(crate::specs::Report::event_text))]
fn put_event(out: &mut Vec<u8>, number: u32, event: Event, admitted: bool)
    ensures { Puts out.old out.new (event_text number event admitted) 51 }
{
    put_number(out, u64::from(number));
    put_act(out, event.act);
    put_number(out, u64::from(event.pass));
    put_answer(out, admitted);
}

// Whether nobody waits, and nobody is detached or shuffles.
fn is_quiet(state: &LineState) -> bool
    ensures line { result ≡ true → state.now.line ≡ [] }
    ensures hand { result ≡ true → state.now.hand ≡ None }
    ensures role { result ≡ true → state.now.role ≡ Nobody }
{
    state.line().is_empty() && state.hand().is_none() && matches!(*state.role(), Role::Nobody)
}

// The queue, the detached waiter and the shuffler.
fn put_waiting(out: &mut Vec<u8>, state: &LineState, queue: &mut QueueText)
    requires few { length state.now.line ≤ 64 }
    ensures { let s = state.now in Puts out.old out.new (codes " line " ++ queue_text s
        ++ codes " hand " ++ hand_text s.hand ++ codes " role " ++ role_text s.role) 2752 }
{
    if is_quiet(state) {
        return put(out, b" line - hand - role -");
    }
    put(out, b" line ");
    queue.put(out, state);
    put(out, b" hand ");
    put_hand(out, state.hand());
    put(out, b" role ");
    put_role(out, *state.role());
}

#[tactic(auto, unfolding(crate::specs::Report::state_text))]
fn put_state(out: &mut Vec<u8>, word: u64, state: &LineState, queue: &mut QueueText)
    requires holders { length state.now.hold ≤ 64 }
    requires waiters { length state.now.line ≤ 64 }
    ensures { Puts out.old out.new (state_text word state.now) 4193 }
{
    put(out, b" word ");
    put_number(out, word);
    put(out, b" hold ");
    put_hold(out, state.hold());
    put_waiting(out, state, queue);
}

#[tactic(auto, unfolding(crate::specs::Report::asleep_text))]
fn put_asleep<B: Board>(
    out: &mut Vec<u8>,
    form: Form,
    board: &B,
    passes: u32,
    parked: &mut ParkedText,
)
    requires passes { length (B.meaning board.now).world.passes ≡ passes }
    requires few { passes ≤ 64 }
    ensures { Puts out.old out.new (asleep_text form (B.meaning board.now).world) 1353 }
{
    match form {
        Form::Spin | Form::Rw => {}
        Form::Park | Form::RwPark => {
            put(out, b" asleep ");
            parked.put(out, board, passes);
        }
    }
}

/// An event with its number, whether it was admitted, and what the lock then is and shows, in at most 5,598 bytes. The state is what it
/// shows.
#[tactic(auto, unfolding(crate::specs::Report::row))]
pub fn put_row<B: Board>(
    out: &mut Vec<u8>,
    form: Form,
    number: u32,
    event: Event,
    admitted: bool,
    board: &mut B,
    state: &LineState,
    texts: &mut RowTexts,
)
    requires few { length (B.meaning board.old).world.passes ≤ 64 }
    requires shown { state.now ≡ shown_line (B.meaning board.old).world }
    ensures text { Puts out.old out.new
        (row form number event admitted (B.meaning board.old).world) 5598 }
    ensures unchanged { B.meaning board.new ≡ B.meaning board.old }
{
    put_event(out, number, event, admitted);
    put_state(out, board.word(), state, &mut texts.queue);
    put_asleep(
        out,
        form,
        board,
        state.mark().len() as u32,
        &mut texts.parked,
    );
    put(out, b"\n");
}

/// How many events were admitted, and how many weren't, in at most 53 bytes.
#[tactic(auto, unfolding(crate::specs::Report::totals_text))]
pub fn put_totals(out: &mut Vec<u8>, admitted: u32, refused: u32)
    ensures { Puts out.old out.new (totals_text admitted refused) 53 }
{
    put(out, b"end yes ");
    put_number(out, u64::from(admitted));
    put(out, b" no ");
    put_number(out, u64::from(refused));
    put(out, b"\n");
}
