//! The seats of an arena as callers outside the language are given them: a seat keeps what it holds, and every argument is judged.
#![tactic(auto)]

mod answers;
mod calls;
mod held;
mod judged;
mod kept;
mod opening;
mod policies;
mod standing;
mod ticket;

pub use answers::{Answer, Progress, answer_told, progress_told};
pub use judged::opens;
pub use opening::open;
pub use ticket::SeatTicket;
