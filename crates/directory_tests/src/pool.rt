//! Pools of a directory's calls.
mod one;
mod rounds;
mod threads;
