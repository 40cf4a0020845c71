//! Traces of calls on the directory: read, written, made, and reported.
#![tactic(auto)]

mod call_list;
mod calls;
mod faults;
mod generator;
mod laws;
mod numbering;
mod policies;
mod read;
mod renumbering;
mod reports;
mod shape;
mod spelled;
mod totals;
mod trace;
mod words;
mod workers;
mod write;

pub use generator::generate;
pub use laws::laws_of_traces;
pub use policy_text::{DocumentError as TraceError, NoMemory};
pub use read::read_trace;
pub use reports::{push_counted, push_rows, render};
pub use totals::summary;
pub use trace::{NamedSource, Trace, TraceAct, TraceCall};
pub use words::{push_call, push_reply};
pub use write::write_trace;
