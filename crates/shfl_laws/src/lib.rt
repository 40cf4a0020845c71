//! What every step of the lock keeps: one law for each step, the laws of every move and of every run, and what they say in plain words.
#![tactic(auto)]

pub mod held;
pub mod measure;
pub mod safety;
pub mod schedules;
pub mod seen;
pub mod stealing;
pub mod table;

pub use held::{holds_of_passes, waiters_wait_on};
pub use measure::{a_round_is_short, what_is_left_by_the_shown_line, what_is_left_of_a_round};
pub use safety::{
    a_lawful_world_in_plain_words, every_move_in_plain_words, every_run_is_safe,
    plain_words_are_the_invariant,
};
pub use schedules::{
    a_seat_is_filled, an_idle_pass_is_forgotten, every_move, every_run, every_step, openings,
    starts,
};
pub use seen::{a_step_as_seen, lawful_as_seen, passes_as_seen, planned_words};
pub use stealing::{nobody_steals_while_disabled, stealing_may_be_disabled};
pub use table::{
    laws_at_the_head, laws_of_attempts, laws_of_choosing, laws_of_joining, laws_of_leaving,
    laws_of_parking, laws_of_relinking, laws_outside_the_queue,
};
