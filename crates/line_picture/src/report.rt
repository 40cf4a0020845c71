//! A report as it was read.
use shfl_line::{Form, LockWord};

/// An event, and whether it was admitted.
#[derive(Clone, Copy, Drop)]
pub struct Event<'a> {
    /// Its number, from 1 on.
    pub number: &'a [u8],
    /// `write`, `read`, `free` or `step`.
    pub act: &'a [u8],
    pub pass: &'a [u8],
    pub admitted: bool,
}

/// What a lock shows after an event. A column is kept as it stands in the report.
#[derive(Clone, Copy, Drop)]
pub struct State<'a> {
    pub lock: LockWord,
    /// `wP` or `rP` between commas, or `-`.
    pub holders: &'a [u8],
    /// `PASS:BATCH` between commas with the head first, or `-`.
    pub queue: &'a [u8],
    /// The detached waiter, or `-`.
    pub detached: &'a [u8],
    /// `rest:P`, `walk:P` or `-`.
    pub shuffler: &'a [u8],
    /// Passes between commas, or `-`; `-` too in the forms in which no waiter sleeps.
    pub asleep: &'a [u8],
}

/// The line of an event.
#[derive(Clone, Copy, Drop)]
pub struct Row<'a> {
    /// The whole line.
    pub line: &'a [u8],
    pub event: Event<'a>,
    pub state: State<'a>,
}

/// A report of `line`.
#[derive(Drop)]
pub struct Report<'a> {
    /// The whole first line.
    pub heading: &'a [u8],
    pub form: Form,
    /// How many passes the lock has, 1 to 64.
    pub passes: u32,
    pub rows: Vec<Row<'a>>,
}
