//! An object with the history of its calls, whose room is taken at the opening.
ghost use Rattle.std.specs.Prelude.{◌≡◌, ◌∷◌, ◌++◌, ◌<◌, ◌≤◌, [], length, slice_index, vec_len, vec_capacity, sum};
ghost use Rattle.hist_log.specs.History.{operations, IsLegal, state_left};
ghost use Rattle.shfl_table.specs.Histories.{actions_by};
ghost use Rattle.shfl_table.specs.Books.{BookModel, operations_of, actions, HavePlaces};

use crate::Kept;
use hist_log::{Entry, Object, Trail};
use std::marker::Model;
use std::snapshot::Snapshot;

/// An object with the history of the calls made on it since the opening.
#[derive(Drop)]
pub struct Book<O: Object> {
    object: O,
    history: Vec<Entry<O>>,
    opening: Snapshot<O>,
    allowed: Vec<u32>,
}

impl<O: Object> Model for Book<O> {
    ghost use Rattle.std.specs.Prelude.{vec_capacity};
    ghost use Rattle.shfl_table.specs.Books.{BookModel, BookInvariant, actions};

    ghost Value = { BookModel };

    ghost view = { λ b. record {
      opening = O.state_numbers b.opening.value;
      allowed = b.allowed.items;
      history = actions O.call_numbers O.reply_numbers b.history.items;
    } };

    ghost invariant = { λ b. BookInvariant O.call_numbers O.reply_numbers O.reply_at O.state_after
        (O.state_numbers b.opening.value) b.allowed.items b.history.items
        (O.state_numbers b.object) (O.spare b.object) (vec_capacity b.history) };
}

impl<O: Object> Kept for Book<O> {
    ghost use Rattle.shfl_table.specs.Books.{pack};

    ghost initial_state = { λ b. pack b.opening b.allowed };

    ghost history = { λ b. b.history };
}

// Puts a call with its reply behind the others, at its place.
fn keep<O: Object>(history: &mut Vec<Entry<O>>, worker: u32, call: &O::Call, reply: O::Reply)
    requires { vec_len history.old < vec_capacity history.old }
    ensures entry { history.new.items ≡ history.old.items ++ record {
      worker = worker;
      call = call.now;
      reply = reply;
      receipt = length history.old.items;
    } ∷ [] }
    ensures room { vec_capacity history.new ≡ vec_capacity history.old }
{
    let receipt = history.len() as u64;
    history.push_reserved(Entry {
        worker,
        call: *call,
        reply,
        receipt,
    });
}

impl<O: Object> Book<O> {
    /// The object before its first call. Worker k may make as many calls as `allowed` has at k,
    /// and `history` has room for all of them.
    pub fn new(object: O, allowed: Vec<u32>, history: Vec<Entry<O>>) -> Book<O>
        requires empty { history.items ≡ [] }
        requires room { sum allowed.items ≤ vec_capacity history }
        requires spare { sum allowed.items ≤ O.spare object }
        ensures { result ≡ record {
          opening = O.state_numbers object;
          allowed = allowed.items;
          history = [];
        } }
    {
        let opening = Snapshot::of(&object);
        Book {
            object,
            history,
            opening,
            allowed,
        }
    }

    /// How many calls were made.
    pub fn len(&self) -> usize
        ensures { result ≡ length self.now.history }
    {
        self.history.len()
    }

    /// Makes a call for a worker, and keeps it with its reply. Takes no memory.
    pub fn apply(&mut self, worker: u32, call: &O::Call) -> O::Reply
        requires left { length (actions_by worker self.old.history)
            < slice_index self.old.allowed worker }
        requires admitted { O.admits self.old.opening (O.call_numbers call.now) }
        ensures done { self.new ≡ record self.old {
          history = self.old.history ++ record {
            worker = worker;
            call = O.call_numbers call.now;
            reply = O.reply_numbers result;
          } ∷ [];
        } }
        ensures reply { O.reply_numbers result ≡ O.reply_at
            (state_left O.state_after self.old.opening (operations_of self.old.history))
            (O.call_numbers call.now) }
        ensures legal { IsLegal O.reply_at O.state_after self.new.opening
            (operations_of self.new.history) }
    {
        let reply = self.object.apply(call);
        keep(&mut self.history, worker, call, reply);
        reply
    }

    /// Where the object made its last call, for `follow` of a book that had the same history.
    pub fn trail(&self) -> Trail {
        self.object.trail()
    }

    /// Makes a call for a worker that a book with the same history answered so, and then told this trail, and keeps it with its reply.
    /// Takes no memory.
    pub fn follow(&mut self, worker: u32, call: &O::Call, reply: &O::Reply, trail: &Trail)
        requires left { length (actions_by worker self.old.history)
            < slice_index self.old.allowed worker }
        requires admitted { O.admits self.old.opening (O.call_numbers call.now) }
        requires answered { O.reply_numbers reply.now ≡ O.reply_at
            (state_left O.state_after self.old.opening (operations_of self.old.history))
            (O.call_numbers call.now) }
        ensures done { self.new ≡ record self.old {
          history = self.old.history ++ record {
            worker = worker;
            call = O.call_numbers call.now;
            reply = O.reply_numbers reply.now;
          } ∷ [];
        } }
        ensures legal { IsLegal O.reply_at O.state_after self.new.opening
            (operations_of self.new.history) }
    {
        self.object.follow(call, reply, trail);
        keep(&mut self.history, worker, call, *reply);
    }

    /// Answers a read, which is not kept.
    pub fn look(&self, call: &O::Call) -> O::Reply
        requires read { O.reads (O.call_numbers call.now) }
        requires admitted { O.admits self.now.opening (O.call_numbers call.now) }
        ensures { O.reply_numbers result ≡ O.reply_at
            (state_left O.state_after self.now.opening (operations_of self.now.history))
            (O.call_numbers call.now) }
    {
        self.object.look(call)
    }

    /// The object and its history.
    pub fn into_parts(self) -> (O, Vec<Entry<O>>)
        ensures history { actions O.call_numbers O.reply_numbers result.1.items ≡ self.history }
        ensures state { O.state_numbers result.0
            ≡ state_left O.state_after self.opening
            (operations O.call_numbers O.reply_numbers result.1.items) }
        ensures legal { IsLegal O.reply_at O.state_after self.opening
            (operations O.call_numbers O.reply_numbers result.1.items) }
        ensures places { HavePlaces result.1.items }
    {
        let Book {
            object,
            history,
            opening: _,
            allowed: _,
        } = self;
        (object, history)
    }
}
