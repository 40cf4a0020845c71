//! How documents spell what a lock is opened with: its form, and the limit of its batches.
#![tactic(auto)]

mod forms;
mod limits;
mod lines;

pub use forms::{form_name, form_named};
pub use limits::batch_of;
pub use lines::{behind, form_due, limit_due};
