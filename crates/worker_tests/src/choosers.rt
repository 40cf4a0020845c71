//! Choosers whose policies are replaced.
ghost use Rattle.std.specs.Prelude.{◌≡◌, length, vec_len};
ghost use Rattle.policy_versions.specs.Models.{IsClosed};
ghost use Rattle.policy_versions.specs.Noting.{IsLogOf};

use crate::checks::same;
use crate::rounds::{Mark, marks_of};
use bpf_isa::Profile;
use policy_versions::{Publisher, Registry, UsingChooser, VersionPass};
use round_log::RoundLog;
use shfl_line::{Attr, Chooser};
use shfl_policy::{Policy, PolicySource, load};
use std::alloc::Global;
use std::process::Abort;
use std::sync::Wait;

// Gives 1 where the waiter's socket is the anchor's, else 0.
const SAME_SOCKET: [u8; 48] = [
    0x61, 0x12, 0, 0, 0, 0, 0, 0, 0x61, 0x11, 4, 0, 0, 0, 0, 0, 0xb7, 0, 0, 0, 1, 0, 0, 0, 0x1d,
    0x21, 1, 0, 0, 0, 0, 0, 0xb7, 0, 0, 0, 0, 0, 0, 0, 0x95, 0, 0, 0, 0, 0, 0, 0,
];

// The policy of this place whose program for `should` is these bytes, if it has one.
fn policy(rt: &impl Abort, alloc: Global, place: u32, should: Option<Vec<u8>>) -> Policy {
    let source = PolicySource { should, skip: None };
    let loaded = load(alloc, place, Profile::One, &source).ok();
    loaded.expect(rt, "a policy")
}

/// A policy without programs, and one that prefers waiters of the own socket.
fn policies(rt: &impl Abort, alloc: Global) -> Vec<Policy>
    ensures { vec_len result ≡ 2 }
{
    let bytes = Vec::from_slice(alloc, &SAME_SOCKET).ok();
    let socket = policy(rt, alloc, 1, Some(bytes.expect(rt, "memory")));
    let both = Vec::from_array(alloc, [policy(rt, alloc, 0, None), socket]);
    both.ok().expect(rt, "memory")
}

fn follow<R: Abort + Wait>(
    rt: &R,
    alloc: Global,
    registry: &Registry,
    publisher: &mut Publisher,
    pass: &mut VersionPass,
)
    requires registry { publisher.old.registry ≡ registry.now }
    requires declared { length registry.now.declared ≡ 2 }
    requires rows { length publisher.old.rows ≡ 0 }
    requires pass { IsClosed registry.now pass.old }
    requires log { IsLogOf registry.now.declared pass.old.seen pass.old.log }
    ensures pass { IsClosed registry.now pass.new }
    ensures log { IsLogOf registry.now.declared pass.new.seen pass.new.log }
{
    let here = Attr::unpack(1);
    let there = Attr::unpack(2);
    let mut chooser = UsingChooser::new(registry, pass, true);
    chooser.begin(rt);
    let instance = registry.instance(alloc, 1).expect(rt, "memory");
    same(rt, &publisher.publish(rt, registry, instance), &1);
    same(rt, &chooser.should(&here, &here, 1), &false);
    chooser.end();
    chooser.begin(rt);
    same(rt, &chooser.should(&here, &here, 1), &true);
    same(rt, &chooser.should(&here, &there, 1), &false);
    same(rt, &chooser.skip(&here, 1), &false);
    let _pass = chooser.done(registry);
}

/// A question that no round has is answered no, and the log keeps nothing from then on.
fn ask_outside(rt: &impl Abort, registry: &Registry, pass: &mut VersionPass)
    requires pass { IsClosed registry.now pass.old }
    requires log { IsLogOf registry.now.declared pass.old.seen pass.old.log }
    ensures pass { IsClosed registry.now pass.new }
{
    let here = Attr::unpack(1);
    let mut chooser = UsingChooser::new(registry, pass, true);
    same(rt, &chooser.should(&here, &here, 1), &false);
    let _pass = chooser.done(registry);
}

/// The two rounds of `follow`, the second of which `done` has ended: each answer with the version that it is by.
fn are_of_two_rounds(rt: &impl Abort, alloc: Global, log: &RoundLog) {
    let due = [
        (0, Mark::Begins),
        (0, Mark::Stays),
        (0, Mark::Ends),
        (1, Mark::Begins),
        (1, Mark::Moves),
        (1, Mark::Stays),
        (1, Mark::GoesOn),
        (1, Mark::Ends),
    ];
    same(rt, &marks_of(rt, alloc, log).as_slice(), &due.as_slice());
}

/// A registry of the two, and its only pass.
fn opened(rt: &impl Abort, alloc: Global) -> (Registry, Publisher, VersionPass)
    ensures registry { result.1.registry ≡ result.0 }
    ensures declared { length result.0.declared ≡ 2 }
    ensures rows { length result.1.rows ≡ 0 }
    ensures pass { IsClosed result.0 result.2 }
{
    let Ok((registry, publisher, mut passes)) = Registry::open(alloc, policies(rt, alloc), 1) else {
        panic!(rt; "memory")
    };
    let Some(pass) = passes.pop() else {
        panic!(rt; "no pass")
    };
    (registry, publisher, pass)
}

/// Between rounds the pass has the version that was published last.
fn has_the_last_version<R: Abort + Wait>(rt: &R, registry: &Registry, pass: &mut VersionPass)
    requires { IsClosed registry.now pass.old }
{
    let held = pass.enter(rt, registry);
    same(rt, &held.version(), &1);
    pass.leave(registry, held);
}

#[test]
fn a_round_is_answered_by_one_version(rt: HostRuntime) {
    let alloc = rt.alloc();
    let (registry, mut publisher, mut pass) = opened(&rt, alloc);
    pass.begin_log(alloc, true);
    follow(&rt, alloc, &registry, &mut publisher, &mut pass);
    are_of_two_rounds(&rt, alloc, &pass.take_log(alloc));
    pass.begin_log(alloc, true);
    ask_outside(&rt, &registry, &mut pass);
    same(&rt, &pass.take_log(alloc).notes().is_none(), &true);
    has_the_last_version(&rt, &registry, &mut pass);
}
