//! What a policy buys on a machine with many sockets, foretold: the proved lock under a defined cost of every access.
#![tactic(auto)]

mod bench;
mod calls;
mod counts;
mod laws;
mod locks;
mod run;
mod steps;
mod tries;
mod turns;
mod waiter;

pub use bench::{Bench, opening};
pub use calls::mode_of;
pub use counts::{Counts, Order, Reaches, Served};
pub use laws::{
    attempts_are_first_steps, polls_change_nothing, runs_are_schedules, sums_agree,
    times_never_fall,
};
pub use locks::open_lock;
pub use run::{Run, is_cut, next_entry, simulate, take_turn, time_reached};
pub use tries::in_vain;
pub use turns::{Entry, Stand, Turn};
pub use waiter::AnyWaiter;
