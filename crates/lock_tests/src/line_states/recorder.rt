//! A policy that keeps what it is told.
use crate::checks::{holds, same};
use shared_tests::Recorder;
use shfl_line::{Attr, Chooser, Told};

#[test]
fn a_policy_tells_its_round(rt: HostRuntime) {
    let mut policy = Recorder::new(rt.alloc(), true);
    let here = Attr::unpack(1);
    policy.begin(&rt);
    holds(&rt, policy.is_asking());
    holds(&rt, !policy.skip(&here, 1));
    holds(&rt, policy.should(&here, &here, 2));
    policy.end();
    holds(&rt, !policy.is_asking());
    let told = policy.told().expect(&rt, "memory");
    same(&rt, &told.len(), &4);
    holds(&rt, matches!(told.first(), Some(Told::Begun)));
    holds(&rt, matches!(told.last(), Some(Told::Ended)));
}
