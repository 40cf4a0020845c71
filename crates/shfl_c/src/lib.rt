//! The lock on shared words for programs in C: each function of `shfl.h` that this library has, over the function of `shfl_ticket`.
#![tactic(auto)]

mod handle;
mod opening;
mod passes;
mod policies;
