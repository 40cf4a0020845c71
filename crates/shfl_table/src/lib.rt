//! The lock on words that threads share, with values behind it, under one rule for the words, the passes and the values.
#![tactic(auto)]

mod attempts;
mod board;
mod book;
mod book_visits;
mod closing;
mod disabling;
mod exchanges;
mod kept;
mod opening;
mod operation;
mod outcomes;
mod passes;
mod pausing;
mod performing;
mod plain_words;
mod plays;
mod queueing;
mod sleepers;
mod trying;
mod view;
mod visits;
mod waiting;

pub use attempts::Busy;
pub use board::SharedBoard;
pub use book::Book;
pub use book_visits::{ApplyCall, FollowCall, LookCall};
pub use closing::Closing;
pub use kept::{Action, Kept};
pub use opening::{open, open_with_sleepers};
pub use outcomes::Outcome;
pub use passes::Pass;
pub use performing::perform;
pub use plain_words::{a_board_in_plain_words, what_threads_did_is_a_run};
pub use queueing::{MOST_ATTEMPTS, Queueing};
pub use view::{Decision, Given, Part};
pub use visits::Visit;
pub use waiting::{free, wait_by, wait_for};
