//! Schedules of a lock: their documents, read line by line, and the report of a run.
#![tactic(auto)]

mod chooser;
mod events;
mod faults;
mod front;
mod handing;
mod laws;
mod parked_text;
mod passes;
mod queue_text;
mod read;
mod report;
mod report_parts;
mod room;
mod rule;
mod run;
mod run_laws;
mod schedule;

pub use chooser::RuleChooser;
pub use handing::RunError;
pub use laws::laws_of_schedules;
pub use policy_text::DocumentError as ScheduleError;
pub use read::read_schedule;
pub use run::run_schedule;
pub use run_laws::runs_are_moves;
pub use schedule::{Act, Event, Rule, Schedule};
