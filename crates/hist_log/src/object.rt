//! What an object of a history is, seen as lists of numbers.
ghost use Rattle.std.specs.Prelude.{◌≡◌, ◌<◌, ◌+◌, ◌↔◌, IsTrue};

use crate::trail::Trail;

/// A value behind calls, whose replies and states are functions of its state and the call.
pub trait Object {
    type Call: Copy;

    type Reply: Copy + Eq;

    ghost use Rattle.std.specs.Prelude.{ℕ, List};

    /// The numbers that stand for a state, a call and a reply.
    ghost state_numbers: { Self → List ℕ };

    ghost call_numbers: { Self.Call → List ℕ };

    ghost reply_numbers: { Self.Reply → List ℕ };

    /// The reply to a call at a state, and the state after the call.
    ghost reply_at: { List ℕ → List ℕ → List ℕ };

    ghost state_after: { List ℕ → List ℕ → List ℕ };

    /// The call is a read.
    ghost reads: { List ℕ → Type 0 };

    /// At the state, the call may be made.
    ghost admits: { List ℕ → List ℕ → Type 0 };

    /// How many calls are left.
    ghost spare: { Self → ℕ };

    /// Whether the call is a read, which leaves the state.
    fn is_read(call: &Self::Call) -> bool
        ensures { IsTrue result ↔ reads (call_numbers call.now) };

    /// How many calls `apply` may still take.
    fn spare(&self) -> u32
        ensures { result ≡ spare self.now };

    /// Does a call, which uses up one of those that are left. Takes no memory.
    fn apply(&mut self, call: &Self::Call) -> Self::Reply
        requires left { 0 < spare self.old }
        requires admitted { admits (state_numbers self.old) (call_numbers call.now) }
        ensures reply { reply_numbers result
            ≡ reply_at (state_numbers self.old) (call_numbers call.now) }
        ensures state { state_numbers self.new
            ≡ state_after (state_numbers self.old) (call_numbers call.now) }
        ensures spare { spare self.new + 1 ≡ spare self.old };

    /// Where the last call was made, for `follow` of an object that was in the same state.
    fn trail(&self) -> Trail {
        Trail::none()
    }

    /// Does a call that an object in the same state answered so, and then told this trail. Uses up one of those that are left, and takes
    /// no memory.
    fn follow(&mut self, call: &Self::Call, reply: &Self::Reply, trail: &Trail)
        requires left { 0 < spare self.old }
        requires admitted { admits (state_numbers self.old) (call_numbers call.now) }
        requires answered { reply_numbers reply.now
            ≡ reply_at (state_numbers self.old) (call_numbers call.now) }
        ensures state { state_numbers self.new
            ≡ state_after (state_numbers self.old) (call_numbers call.now) }
        ensures spare { spare self.new + 1 ≡ spare self.old }
    {
        let _ = reply;
        let _ = trail;
        let _ = self.apply(call);
    }

    /// Answers a read. Takes no memory.
    fn look(&self, call: &Self::Call) -> Self::Reply
        requires read { reads (call_numbers call.now) }
        requires admitted { admits (state_numbers self.now) (call_numbers call.now) }
        ensures { reply_numbers result
            ≡ reply_at (state_numbers self.now) (call_numbers call.now) };

    /// Different calls have different numbers.
    ghost calls_differ: { (a b : Self.Call) → call_numbers a ≡ call_numbers b → a ≡ b };

    /// Replies are equal exactly where they have the same numbers.
    ghost replies_differ: { (a b : Self.Reply)
        → IsTrue (Self.Reply.eq a b) ↔ (reply_numbers a ≡ reply_numbers b) };

    /// Objects with the same state and as many calls left are the same.
    ghost states_differ: { (a b : Self)
        → state_numbers a ≡ state_numbers b → spare a ≡ spare b → a ≡ b };

    /// A read leaves the state.
    ghost reads_leave: { (state call : List ℕ) → reads call → state_after state call ≡ state };

    /// No call changes which calls are admitted.
    ghost admits_stays: { (state call other : List ℕ)
        → admits state other ↔ admits (state_after state call) other };
}
