//! The seats of an arena for programs in C: what `libshfl` is made of, each function over the function of `shfl_seats`.
#![tactic(auto)]

mod calls;
mod handle;
mod lent;
mod opening;
mod policies;
