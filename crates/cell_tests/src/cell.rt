//! Cells that threads call, and what is in their histories.
mod marks;
mod threads;
mod two;
