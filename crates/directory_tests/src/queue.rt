//! A queue under one taker.
ghost use Rattle.std.specs.Prelude.{◌≡◌};

use crate::checks::{holds, same};
use call_queue::{CallQueue, Taker};
use hist_log::NumberedCall;
use std::process::Abort;
use std::sync::Wait;

/// The taker takes this call, or finds none.
fn takes<R: Abort + Wait>(
    rt: &R,
    queue: &CallQueue<u32>,
    taker: &mut Taker<u32>,
    due: Option<NumberedCall<u32>>,
)
    requires { taker.old.queue ≡ queue.now.id }
    ensures { taker.new.queue ≡ queue.now.id }
{
    same(rt, &queue.take(rt, taker), &due);
}

#[test]
fn a_taker_takes_the_calls_in_order(rt: HostRuntime) {
    let opened = CallQueue::open(rt.alloc(), &[7u32, 8], 1).ok();
    let (queue, mut takers) = opened.expect(&rt, "a queue");
    let mut taker = takers.pop().expect(&rt, "a taker");
    let first = NumberedCall { at: 0, call: 7 };
    takes(&rt, &queue, &mut taker, Some(first));
    let second = NumberedCall { at: 1, call: 8 };
    takes(&rt, &queue, &mut taker, Some(second));
    holds(&rt, !taker.ended());
    takes(&rt, &queue, &mut taker, None);
    holds(&rt, taker.ended());
    takes(&rt, &queue, &mut taker, None);
}

#[test]
fn a_queue_of_no_call_ends_at_once(rt: HostRuntime) {
    let none: [u32; 0] = [];
    let opened = CallQueue::open(rt.alloc(), &none, 1).ok();
    let (queue, mut takers) = opened.expect(&rt, "a queue");
    let mut taker = takers.pop().expect(&rt, "a taker");
    takes(&rt, &queue, &mut taker, None);
    holds(&rt, taker.ended());
}
