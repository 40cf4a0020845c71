//! Many locks on one set of nodes, a node for each thread: the rule of such an arena, what every operation keeps of it, and its seats.
#![tactic(auto)]

mod arena;
mod attempting;
mod closing;
pub mod laws;
mod leaving;
mod mutex;
mod opening;
mod operation;
mod outcomes;
mod pausing;
mod performing;
mod plays;
mod seat_attempts;
mod seats;
pub mod shape;
mod sleeping;
mod standing;
mod trying;
mod values;
pub mod view;
mod waiting;

pub use arena::Arena;
pub use laws::{
    a_thread_queues_at_one_lock, each_lock_in_plain_words, every_step_in_an_arena, laws_of_nodes,
    openings_of_arenas, threads_go_on, words_stand_apart,
};
pub use performing::perform;
pub use seats::ArenaSeat;
pub use shape::Shape;
pub use trying::MOST_ATTEMPTS;
pub use view::{Decision, ThreadView};
pub use waiting::{free, wait_for};
