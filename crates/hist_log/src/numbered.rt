//! An object whose calls carry their place.
ghost use Rattle.std.specs.Prelude.{◌≡◌};

use crate::object::Object;

/// A call with its place in a list of calls.
#[derive(Clone, Copy, Debug, PartialEq, Eq)]
pub struct NumberedCall<C: Copy> {
    /// The place, from 0.
    pub at: u32,
    pub call: C,
}

/// An object whose calls carry their place, and which heeds no place: it answers as the object within.
#[derive(Drop)]
pub struct Numbered<O: Object> {
    object: O,
}

impl<O: Object> Numbered<O> {
    /// The object, whose calls now carry their place.
    pub fn new(object: O) -> Numbered<O>
        ensures state { ⟦<Numbered<O> as Object>⟧.state_numbers result ≡ O.state_numbers object }
        ensures spare { ⟦<Numbered<O> as Object>⟧.spare result ≡ O.spare object }
    {
        Numbered { object }
    }

    /// The object within.
    pub fn into_inner(self) -> O
        ensures state { O.state_numbers result ≡ ⟦<Numbered<O> as Object>⟧.state_numbers self }
        ensures spare { O.spare result ≡ ⟦<Numbered<O> as Object>⟧.spare self }
    {
        self.object
    }
}

impl<O: Object> Object for Numbered<O> {
    ghost use Rattle.hist_log.specs.Numbers.{inner, numbers, numbers_differ};

    type Call = NumberedCall<O::Call>;

    type Reply = O::Reply;

    ghost state_numbers = { λ n. O.state_numbers n.object };

    ghost call_numbers = { numbers O.call_numbers };

    ghost reply_numbers = { O.reply_numbers };

    ghost reply_at = { λ state call. O.reply_at state (inner call) };

    ghost state_after = { λ state call. O.state_after state (inner call) };

    ghost reads = { λ call. O.reads (inner call) };

    ghost admits = { λ state call. O.admits state (inner call) };

    ghost spare = { λ n. O.spare n.object };

    fn is_read(call: &NumberedCall<O::Call>) -> bool {
        O::is_read(&call.call)
    }

    fn spare(&self) -> u32 {
        self.object.spare()
    }

    fn apply(&mut self, call: &NumberedCall<O::Call>) -> O::Reply {
        self.object.apply(&call.call)
    }

    fn look(&self, call: &NumberedCall<O::Call>) -> O::Reply {
        self.object.look(&call.call)
    }

    ghost calls_differ = { numbers_differ O.call_numbers O.calls_differ };

    ghost replies_differ = { λ a b. O.replies_differ a b };

    ghost states_differ = { λ a b state spare. λ i. record {
      object = O.states_differ a.object b.object state spare i;
    } };

    ghost reads_leave = { λ state call reads. O.reads_leave state (inner call) reads };

    ghost admits_stays = { λ state call other.
        O.admits_stays state (inner call) (inner other) };
}
