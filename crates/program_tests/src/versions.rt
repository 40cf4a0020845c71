//! Registries, their publishers and their users.
mod staying;
mod threads;

ghost use Rattle.std.specs.Prelude.{◌≡◌, ◌+◌, ◌<◌, ◌≤◌, [], All, length, vec_len};
ghost use Rattle.policy_versions.specs.Models.{IsClosed, next_version};

use crate::checks::{is_told, same};
use bpf_isa::Profile;
use policy_versions::{Lost, Place, Publisher, Registry, Right, SlotTurns, Turns, VersionPass};
use shfl_policy::{Policy, PolicySource, load};
use std::alloc::Global;
use std::process::Abort;
use std::sync::Wait;

/// The word of an instance that one user has entered.
const ONE_USER: u64 = 5;

/// A policy without programs.
fn policy(rt: &impl Abort, alloc: Global, name: u32) -> Policy {
    let source = PolicySource {
        should: None,
        skip: None,
    };
    load(alloc, name, Profile::One, &source).expect(rt, "a policy")
}

/// Policies that are named by their places.
fn policies(rt: &impl Abort, alloc: Global, count: u32) -> Vec<Policy>
    ensures { vec_len result ≡ count }
{
    let mut policies = Vec::new(alloc);
    for name in 0..count {
        let policy = policy(rt, alloc, name);
        policies.push(policy).ok().expect(rt, "memory");
    }
    policies
}

/// A registry of so many policies, its publisher, and the passes of so many users.
pub(crate) fn opened(
    rt: &impl Abort,
    alloc: Global,
    count: u32,
    users: u32,
) -> (Registry, Publisher, Vec<VersionPass>)
    requires policies { (0 < count) × (count ≤ 64) }
    requires users { (0 < users) × (users ≤ 64) }
    ensures declared { length result.0.declared ≡ count }
    ensures registry { result.1.registry ≡ result.0 }
    ensures rows { result.1.rows ≡ [] }
    ensures passes { All (IsClosed result.0) result.2.items }
{
    let policies = policies(rt, alloc, count);
    let Ok((registry, publisher, passes)) = Registry::open(alloc, policies, users) else {
        panic!(rt; "memory")
    };
    (registry, publisher, passes)
}

/// The pass of the last user that is left.
fn next_pass(rt: &impl Abort, registry: &Registry, passes: &mut Vec<VersionPass>) -> VersionPass
    requires { All (IsClosed registry.now) passes.old.items }
    ensures pass { IsClosed registry.now result }
    ensures passes { All (IsClosed registry.now) passes.new.items }
{
    let _ = registry;
    passes.pop().expect(rt, "a pass")
}

/// One publication of the first policy, with one turn.
fn publish_one(
    rt: &impl Abort,
    alloc: Global,
    registry: &Registry,
    publisher: &mut Publisher,
    expected: u64,
)
    requires registry { publisher.old.registry ≡ registry.now }
    requires declared { 0 < length registry.now.declared }
    requires room { length publisher.old.rows < 4096 }
    ensures registry { publisher.new.registry ≡ registry.now }
    ensures rows { length publisher.new.rows ≡ next_version publisher.old }
{
    let instance = registry.instance(alloc, 0).expect(rt, "memory");
    match publisher.try_publish(registry, &mut SlotTurns::new(), instance) {
        Ok(version) => same(rt, &version, &expected),
        Err(_) => panic!(rt; "the place is in use"),
    }
}

/// Publications of the versions from this one to the one before the last.
fn publish_up_to(
    rt: &impl Abort,
    alloc: Global,
    registry: &Registry,
    publisher: &mut Publisher,
    first: u64,
    last: u64,
)
    requires registry { publisher.old.registry ≡ registry.now }
    requires declared { 0 < length registry.now.declared }
    requires first { length publisher.old.rows < first }
    requires room { (length publisher.old.rows + last < 4096 + first) × (first ≤ last) }
    ensures registry { publisher.new.registry ≡ registry.now }
    ensures rows { length publisher.new.rows + first ≡ length publisher.old.rows + last }
{
    for version in first..last {
        publish_one(rt, alloc, registry, publisher, version);
    }
}

/// One refused publication: the word that was found has a reader, and the instance comes back.
fn refuse_one(rt: &impl Abort, alloc: Global, registry: &Registry, publisher: &mut Publisher)
    requires registry { publisher.old.registry ≡ registry.now }
    requires declared { 0 < length registry.now.declared }
    requires room { length publisher.old.rows < 4096 }
    ensures { publisher.new ≡ publisher.old }
{
    let instance = registry.instance(alloc, 0).expect(rt, "memory");
    match publisher.try_publish(registry, &mut SlotTurns::new(), instance) {
        Ok(_) => panic!(rt; "published over a user"),
        Err(refused) => {
            same(rt, &refused.word, &ONE_USER);
            same(rt, &refused.loaded, &ONE_USER);
            same(rt, &refused.instance.which(), &0);
        }
    }
}

fn one_user_stays<R: Abort + Wait>(
    rt: &R,
    alloc: Global,
    registry: &Registry,
    publisher: &mut Publisher,
    pass: &mut VersionPass,
)
    requires registry { publisher.old.registry ≡ registry.now }
    requires declared { 0 < length registry.now.declared }
    requires rows { length publisher.old.rows ≡ 0 }
    requires pass { IsClosed registry.now pass.old }
{
    let held = pass.enter(rt, registry);
    same(rt, &held.version(), &0);
    publish_up_to(rt, alloc, registry, publisher, 1, 8);
    refuse_one(rt, alloc, registry, publisher);
    pass.leave(registry, held);
    publish_one(rt, alloc, registry, publisher, 8);
    let newer = pass.enter(rt, registry);
    same(rt, &newer.version(), &8);
    pass.leave(registry, newer);
}

#[test]
fn a_place_in_use_is_not_filled(rt: HostRuntime) {
    let alloc = rt.alloc();
    let (registry, mut publisher, mut passes) = opened(&rt, alloc, 1, 1);
    let mut pass = next_pass(&rt, &registry, &mut passes);
    one_user_stays(&rt, alloc, &registry, &mut publisher, &mut pass);
}

/// Loses each turn, with words of its own.
#[derive(Drop)]
struct Loser {
    count: u64,
    last: Option<Lost>,
}

impl Turns for Loser {
    ghost won = { λ _. 0 };

    ghost lost = { λ t. t.count };

    ghost last_lost = { λ t. t.last };

    fn turn<'a>(&mut self, _place: &'a Place, _right: &mut Right<'a>) -> Result<(), Lost> {
        let lost = Lost {
            loaded: 0x5_0000_0001,
            word: 0x6_0000_0009,
        };
        self.count = self.count.saturating_add(1);
        self.last = Some(lost);
        Err(lost)
    }
}

/// What is told of a place in use.
const IN_USE: &str = "the place of the next version is in use";

/// A publication whose turn is lost is refused with the words of that turn.
fn lose_one(rt: &impl Abort, alloc: Global, registry: &Registry, publisher: &mut Publisher)
    requires registry { publisher.old.registry ≡ registry.now }
    requires declared { 0 < length registry.now.declared }
    requires room { length publisher.old.rows < 4096 }
    ensures { publisher.new ≡ publisher.old }
{
    let mut turns = Loser {
        count: 0,
        last: None,
    };
    let instance = registry.instance(alloc, 0).expect(rt, "memory");
    match publisher.try_publish(registry, &mut turns, instance) {
        Ok(_) => panic!(rt; "published without a turn"),
        Err(refused) => {
            let words = (refused.loaded, refused.word);
            same(rt, &words, &(0x5_0000_0001, 0x6_0000_0009));
            is_told(rt, alloc, &refused, IN_USE);
        }
    }
}

#[test]
fn a_refusal_has_the_words_of_the_turn_that_was_lost(rt: HostRuntime) {
    let alloc = rt.alloc();
    let (registry, mut publisher, _passes) = opened(&rt, alloc, 1, 1);
    lose_one(&rt, alloc, &registry, &mut publisher);
    publish_one(&rt, alloc, &registry, &mut publisher, 1);
}

/// Publishes the declared policies 2, 0 and 1 in turn: the user finds each under its own version.
fn follow<R: Abort + Wait>(
    rt: &R,
    alloc: Global,
    registry: &Registry,
    publisher: &mut Publisher,
    pass: &mut VersionPass,
)
    requires registry { publisher.old.registry ≡ registry.now }
    requires declared { length registry.now.declared ≡ 3 }
    requires rows { length publisher.old.rows ≡ 0 }
    requires pass { IsClosed registry.now pass.old }
{
    for version in 1..21u64 {
        let which = ((version + 1) % 3) as u32;
        let instance = registry.instance(alloc, which).expect(rt, "memory");
        same(rt, &publisher.publish(rt, registry, instance), &version);
        let held = pass.enter(rt, registry);
        same(rt, &(held.version(), held.which()), &(version, which));
        same(rt, &held.policy(registry).name(), &which);
        pass.leave(registry, held);
    }
}

#[test]
fn a_use_names_its_version_and_its_policy(rt: HostRuntime) {
    let alloc = rt.alloc();
    let (registry, mut publisher, mut passes) = opened(&rt, alloc, 3, 1);
    let mut pass = next_pass(&rt, &registry, &mut passes);
    follow(&rt, alloc, &registry, &mut publisher, &mut pass);
}
