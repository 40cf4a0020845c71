//! One caller.
use crate::checks::{holds, same};
use shared_tests::PLAIN;
use shfl_core::{Access, Phase, Waiter, Word};
use shfl_line::{Form, Mode};
use shfl_rw_core::RwLocal;

#[test]
fn a_reader_counts_itself(rt: HostRuntime) {
    let mut waiter = RwLocal::new(3, PLAIN, 1024, Form::Rw);
    let begun = waiter.acquire(Mode::Read);
    holds(&rt, begun);
    let one_more = Access::Add {
        w: Word::Lock,
        v: 4294967296,
    };
    same(&rt, &waiter.plan(), &one_more);
    waiter.take(0, false);
    same(&rt, &waiter.phase(), &Phase::Held);
}
