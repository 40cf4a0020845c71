//! The text of a queue, kept for the rows that show the same queue again.
ghost use Rattle.std.specs.Prelude.{◌≡◌, ◌≤◌, true, length, map, vec_capacity};
ghost use Rattle.shfl_sched.specs.ReportParts.{listed, waiter_text};
ghost use Rattle.shfl_sched.specs.Room.{Puts};

use crate::report_parts::put_queue;
use crate::room::put;
use shfl_line::{LineState, NoMemory};
use std::alloc::Global;

/// The queue that was written last, with the batch numbers, and its text.
#[derive(Drop)]
pub struct QueueText {
    known: bool,
    line: Vec<u32>,
    mark: Vec<u16>,
    text: Vec<u8>,
    ghost is_text: { known ≡ true → text.items ≡ listed (map (waiter_text mark.items) line.items) },
    ghost few: { length text.items ≤ 2689 },
    ghost room: { 2689 ≤ vec_capacity text },
}

impl QueueText {
    /// No queue was written yet. There is room for all that 64 passes can be.
    pub fn open(alloc: Global) -> Result<QueueText, NoMemory> {
        Ok(QueueText {
            known: false,
            line: Vec::with_capacity(alloc, 64)?,
            mark: Vec::with_capacity(alloc, 64)?,
            text: Vec::with_capacity(alloc, 2689)?,
        })
    }

    // Whether this is the queue that was written last.
    fn is_of(&self, state: &LineState) -> bool
        ensures known { result ≡ true → self.now.known ≡ true }
        ensures line { result ≡ true → self.now.line.items ≡ state.now.line }
        ensures mark { result ≡ true → self.now.mark.items ≡ state.now.mark }
    {
        self.known && self.line.as_slice() == state.line() && self.mark.as_slice() == state.mark()
    }

    // Keeps the queue of a state and its text, or says that it didn't.
    fn keep(&mut self, state: &LineState) -> bool
        requires few { length state.now.line ≤ 64 }
        ensures { result ≡ true → self.new.text.items
            ≡ listed (map (waiter_text state.now.mark) state.now.line) }
    {
        self.known = false;
        self.line.clear();
        self.mark.clear();
        self.text.clear();
        let line = self.line.extend_from_slice(state.line());
        let mark = self.mark.extend_from_slice(state.mark());
        if line.is_ok() && mark.is_ok() {
            put_queue(&mut self.text, state.mark(), state.line());
            self.known = true;
        }
        self.known
    }

    /// Writes the queue of a state.
    pub fn put(&mut self, out: &mut Vec<u8>, state: &LineState)
        requires few { length state.now.line ≤ 64 }
        ensures { Puts out.old out.new
            (listed (map (waiter_text state.now.mark) state.now.line)) 2689 }
    {
        if state.line().is_empty() {
            return put(out, b"-");
        }
        if self.is_of(state) || self.keep(state) {
            put(out, self.text.as_slice());
        } else {
            put_queue(out, state.mark(), state.line());
        }
    }
}
