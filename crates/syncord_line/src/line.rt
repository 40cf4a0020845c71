//! From bytes to the schedule that they are, or to the first bad line.
ghost use Rattle.std.specs.Prelude.{IfOk, IfErr, Ok};
ghost use Rattle.shfl_sched.specs.Grammar.{ReadsSchedule};
ghost use Rattle.shfl_sched.specs.Schedules.{IsWithin};
ghost use Rattle.syncord_endings.specs.Endings.{Due};
ghost use Rattle.syncord_line.specs.Reports.{Refuses};

use shfl_sched::{Schedule, ScheduleError, read_schedule};
use std::alloc::Global;
use syncord_endings::Refusal;

/// The schedule that the bytes are.
pub fn schedule_of(alloc: Global, bytes: &[u8]) -> Result<Schedule, Refusal>
    ensures read { IfOk result (λ s. ReadsSchedule bytes.now (Ok s)) }
    ensures within { IfOk result IsWithin }
    ensures refusal { IfErr result (Due (Refuses bytes.now)) }
{
    match read_schedule(alloc, bytes) {
        Ok(schedule) => Ok(schedule),
        Err(ScheduleError::Format { line, what }) => Err(Refusal::Line { line, what }),
        Err(ScheduleError::NoMemory) => Err(Refusal::NoMemory),
    }
}
