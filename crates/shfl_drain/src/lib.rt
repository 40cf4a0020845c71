//! That a lock without newcomers drains: laws of every lawful lock, whatever its policies answer.
#![tactic(auto)]

pub mod drain;
pub mod progress;
pub mod rounds;

pub use drain::{
    a_fair_schedule_drains, a_lock_without_newcomers_drains, stealing_is_enabled_in_the_end,
    what_is_left_until_a_lock_has_drained,
};
pub use progress::{each_waiting_pass_waits_for_another, no_lawful_world_is_stuck};
pub use rounds::{a_shuffler_always_hands_on, only_a_full_batch_begins_no_round};
