//! The queue's closing.
ghost use Rattle.std.specs.Prelude.{◌≡◌, ◌+◌, ◌≤◌, ◌++◌, ◌||◌, true};
ghost use Rattle.call_queue.specs.Rule.{whole};
ghost use Rattle.call_queue.specs.Queues.{IsEachTaken};

use crate::queue::{CallQueue, Taker};
use crate::rule::{OnePart, Whole};

impl<C: Copy> CallQueue<C> {
    /// Adds what another taker took to what this one took.
    pub fn unite(&self, taker: &mut Taker<C>, other: Taker<C>)
        requires this { taker.old.queue ≡ self.now.id }
        requires other { other.queue ≡ self.now.id }
        ensures { taker.new ≡ record taker.old {
          parts = taker.old.parts + other.parts;
          taken = taker.old.taken ++ other.taken;
          ended = taker.old.ended || other.ended;
        } }
    {
        let Taker { pass, ended } = other;
        self.line.absorb::<OnePart>(&mut taker.pass, pass);
        taker.ended |= ended;
    }

    /// Where all takers were united, and one of them had ended, each call was taken by one of them.
    pub fn finish(self, all: Taker<C>)
        requires queue { all.queue ≡ self.id }
        requires whole { whole ≤ all.parts }
        requires ended { all.ended ≡ true }
        ensures { IsEachTaken all.calls all.taken }
    {
        let Taker { mut pass, ended: _ } = all;
        self.line.learn_as::<Whole>(&mut pass);
    }
}
