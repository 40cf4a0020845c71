//! How many may leave the queue before a waiter does: laws of every lawful lock, whatever its policies answer.
#![tactic(auto)]

pub mod overtaking;
pub mod runs;
pub mod stealing;

pub use overtaking::{
    every_change, first_in_first_out_at_limit_one, no_policy_starves_a_waiter,
    steps_on_shared_words_are_changes, what_may_still_leave_before_a_waiter,
};
pub use runs::what_threads_do_is_a_run;
pub use stealing::{few_steals_pass_a_waiter, only_who_left_last_enables_stealing};
