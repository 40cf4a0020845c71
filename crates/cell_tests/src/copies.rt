//! Cells with a copy for each pass: reads beside each other, threads that call, and what is in their histories.
mod holding;
mod opening;
mod threads;
mod turns;
