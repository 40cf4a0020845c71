//! An entry of a history.
ghost use Rattle.std.specs.Prelude.{◌≡◌};

use crate::object::Object;

/// One call with its reply.
#[derive(Drop)]
pub struct Entry<O: Object> {
    /// The number of the worker who made the call.
    pub worker: u32,
    pub call: O::Call,
    pub reply: O::Reply,
    /// The place that the call's `Receipt` has.
    pub receipt: u64,
}

impl<O: Object> Entry<O> {
    /// The same entry again. Takes no memory.
    pub fn copy(&self) -> Entry<O>
        ensures { result ≡ self.now }
    {
        Entry {
            worker: self.worker,
            call: self.call,
            reply: self.reply,
            receipt: self.receipt,
        }
    }
}

/// What a call is answered beside its reply.
#[derive(Clone, Copy, Debug, PartialEq, Eq)]
pub struct Receipt {
    /// The place in the history, from 0; of a read the number of writes before it.
    pub place: u64,
}
