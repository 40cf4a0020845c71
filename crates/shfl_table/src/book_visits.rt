//! The calls of a book that stands in its place.
use crate::book::Book;
use crate::visits::Visit;
use hist_log::{Object, Trail};

/// Makes a call on a book, as `Book::apply` does. The answer is the reply, the call's place, and where the object made it.
#[derive(Drop)]
pub struct ApplyCall<'a, O: Object> {
    pub worker: u32,
    pub call: &'a O::Call,
}

impl<'a, O: Object> Visit<Book<O>> for ApplyCall<'a, O> {
    ghost use Rattle.shfl_table.specs.Books.{MayCall, MakesEntry};

    type Answer = (O::Reply, u64, Trail);

    ghost ready = { λ s b. MayCall O.admits s.worker (O.call_numbers s.call.now) b };

    ghost done = { λ s b answer c. MakesEntry O.reply_at O.state_after b (record {
      worker = s.worker;
      call = O.call_numbers s.call.now;
      reply = O.reply_numbers answer.0;
    }) answer.1 c };

    #[inline(always)]
    fn run(self, book: &mut Book<O>) -> (O::Reply, u64, Trail) {
        let place = book.len() as u64;
        let reply = book.apply(self.worker, self.call);
        (reply, place, book.trail())
    }
}

/// Makes a call on a book that another book with the same history answered so, as `Book::follow` does.
#[derive(Drop)]
pub struct FollowCall<'a, O: Object> {
    pub worker: u32,
    pub call: &'a O::Call,
    pub reply: &'a O::Reply,
    pub trail: &'a Trail,
}

impl<'a, O: Object> Visit<Book<O>> for FollowCall<'a, O> {
    ghost use Rattle.std.specs.Prelude.{◌≡◌, length};
    ghost use Rattle.shfl_table.specs.Books.{MayCall, MakesEntry, reply_now};

    type Answer = ();

    ghost ready = { λ s b. MayCall O.admits s.worker (O.call_numbers s.call.now) b
        × (O.reply_numbers s.reply.now
        ≡ reply_now O.reply_at O.state_after b (O.call_numbers s.call.now)) };

    ghost done = { λ s b _ c. MakesEntry O.reply_at O.state_after b (record {
      worker = s.worker;
      call = O.call_numbers s.call.now;
      reply = O.reply_numbers s.reply.now;
    }) (length b.history) c };

    #[inline(always)]
    fn run(self, book: &mut Book<O>) {
        book.follow(self.worker, self.call, self.reply, self.trail);
    }
}

/// Answers a read from a book, which it leaves as it is, as `Book::look` does. The answer is the reply and how many calls were made
/// before.
#[derive(Drop)]
pub struct LookCall<'a, O: Object> {
    pub call: &'a O::Call,
}

impl<'a, O: Object> Visit<Book<O>> for LookCall<'a, O> {
    ghost use Rattle.std.specs.Prelude.{◌≡◌, length};
    ghost use Rattle.shfl_table.specs.Books.{reply_now};

    type Answer = (O::Reply, u64);

    ghost ready = { λ s b. O.reads (O.call_numbers s.call.now)
        × O.admits b.opening (O.call_numbers s.call.now) };

    ghost done = { λ s b answer c. (c ≡ b) × (answer.1 ≡ length b.history)
        × (O.reply_numbers answer.0
        ≡ reply_now O.reply_at O.state_after b (O.call_numbers s.call.now)) };

    #[inline(always)]
    fn run(self, book: &mut Book<O>) -> (O::Reply, u64) {
        (book.look(self.call), book.len() as u64)
    }
}
