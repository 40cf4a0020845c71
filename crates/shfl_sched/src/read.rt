//! From bytes to a schedule.
ghost use Rattle.std.specs.Prelude.{◌≡◌, ◌≤◌, Ok, length, IfOk};
ghost use Rattle.doc_text.specs.Faults.{GivesOrWants};
ghost use Rattle.policy_text.specs.Errors.{fault_of};
ghost use Rattle.shfl_sched.specs.Errors.{Allows};
ghost use Rattle.shfl_sched.specs.Grammar.{front_in, schedule_in, ReadsSchedule};
ghost use Rattle.shfl_sched.specs.Schedules.{ScheduleModel, IsWithin};
ghost use Rattle.shfl_sched.specs.Spelling.{IsText};

use crate::events::events_of;
use crate::front::front_of;
use crate::passes::passes_of;
use crate::rule::rule_of;
use crate::schedule::Schedule;
use policy_text::DocumentError as ScheduleError;
use std::alloc::Global;

#[tactic(auto, unfolding(crate::specs::Grammar::schedule_in))]
fn schedule_of(alloc: Global, bytes: &[u8]) -> Result<Schedule, ScheduleError>
    ensures { Allows result (ReadsSchedule bytes.now) }
{
    let front = front_of(bytes)?;
    let line = u32::from(front.version) + 3;
    let rule = rule_of(alloc, front.profile, line, front.policy)?;
    let (passes, rest) = passes_of(alloc, front.rest, line + 1)?;
    let count = passes.len() as u32;
    let events = events_of(alloc, front.form, count, rest, line + 1 + count)?;
    Ok(Schedule {
        version: front.version,
        profile: front.profile,
        form: front.form,
        limit: front.limit,
        rule,
        passes,
        events,
    })
}

/// Reads a schedule, or names the first bad line and the lowest fault on it.
pub fn read_schedule(alloc: Global, bytes: &[u8]) -> Result<Schedule, ScheduleError>
    ensures exact { Allows result (ReadsSchedule bytes.now) }
    // What is read is a schedule within the limits, whose text these bytes are, and any such schedule is read.
    ensures found { IfOk result (λ s. IsText bytes.now s × IsWithin s) }
    ensures only { (s : ScheduleModel) → IsWithin s → IsText bytes.now s →
        GivesOrWants fault_of (λ x. x) result (Ok s) }
{
    schedule_of(alloc, bytes)
}
