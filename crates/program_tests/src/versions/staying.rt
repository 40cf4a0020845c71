//! Users that stay in their versions while others are published.
ghost use Rattle.std.specs.Prelude.{◌≡◌, ◌<◌, All, length, true};
ghost use Rattle.policy_versions.specs.Models.{IsClosed};

use super::{next_pass, opened, publish_one, refuse_one};
use crate::checks::same;
use policy_versions::{Publisher, Registry, Using, VersionPass};
use std::alloc::Global;
use std::process::Abort;
use std::sync::Wait;

/// A user that stays in its version.
struct Staying<'r> {
    pass: VersionPass,
    held: Using<'r>,
    ghost opened: { pass.is_open ≡ true },
    ghost of_table: { pass.registry.table ≡ held.registry.table },
    ghost of_user: { held.user ≡ pass.user },
}

/// The user leaves.
fn leave_one(registry: &Registry, staying: Staying<'_>)
    requires { staying.held.registry ≡ registry.now }
{
    let Staying { mut pass, held } = staying;
    pass.leave(registry, held);
}

/// Every version is in use. The place of the next one is free only once the user of the eighth last has left; the user of the last one
/// stays in its version all the while.
fn leave_in_order(
    rt: &impl Abort,
    alloc: Global,
    registry: &Registry,
    publisher: &mut Publisher,
    first: Staying<'_>,
    fourth: Staying<'_>,
    last: Staying<'_>,
)
    requires registry { publisher.old.registry ≡ registry.now }
    requires declared { 0 < length registry.now.declared }
    requires rows { length publisher.old.rows ≡ 7 }
    requires first { first.held.registry ≡ registry.now }
    requires fourth { fourth.held.registry ≡ registry.now }
    requires last { last.held.registry ≡ registry.now }
    ensures registry { publisher.new.registry ≡ registry.now }
{
    refuse_one(rt, alloc, registry, publisher);
    leave_one(registry, fourth);
    refuse_one(rt, alloc, registry, publisher);
    leave_one(registry, first);
    publish_one(rt, alloc, registry, publisher, 8);
    same(rt, &last.held.version(), &7);
    same(rt, &last.held.policy(registry).name(), &0);
    leave_one(registry, last);
}

/// The next user enters the current version.
fn stay<'r, R: Abort + Wait>(
    rt: &R,
    registry: &'r Registry,
    passes: &mut Vec<VersionPass>,
    version: u64,
) -> Staying<'r>
    requires { All (IsClosed registry.now) passes.old.items }
    ensures passes { All (IsClosed registry.now) passes.new.items }
    ensures held { result.held.registry ≡ registry.now }
{
    let mut pass = next_pass(rt, registry, passes);
    let held = pass.enter(rt, registry);
    same(rt, &held.version(), &version);
    Staying { pass, held }
}

/// The users of versions 4 to 7 enter, with those of the first and the fourth version inside.
fn hold_last<R: Abort + Wait>(
    rt: &R,
    alloc: Global,
    registry: &Registry,
    publisher: &mut Publisher,
    passes: &mut Vec<VersionPass>,
    first: Staying<'_>,
    fourth: Staying<'_>,
)
    requires registry { publisher.old.registry ≡ registry.now }
    requires declared { 0 < length registry.now.declared }
    requires rows { length publisher.old.rows ≡ 4 }
    requires passes { All (IsClosed registry.now) passes.old.items }
    requires first { first.held.registry ≡ registry.now }
    requires fourth { fourth.held.registry ≡ registry.now }
{
    let fifth = stay(rt, registry, passes, 4);
    publish_one(rt, alloc, registry, publisher, 5);
    let sixth = stay(rt, registry, passes, 5);
    publish_one(rt, alloc, registry, publisher, 6);
    let seventh = stay(rt, registry, passes, 6);
    publish_one(rt, alloc, registry, publisher, 7);
    let last = stay(rt, registry, passes, 7);
    leave_in_order(rt, alloc, registry, publisher, first, fourth, last);
    leave_one(registry, fifth);
    leave_one(registry, sixth);
    leave_one(registry, seventh);
}

/// The users of the first four versions enter.
fn hold_each<R: Abort + Wait>(
    rt: &R,
    alloc: Global,
    registry: &Registry,
    publisher: &mut Publisher,
    passes: &mut Vec<VersionPass>,
)
    requires registry { publisher.old.registry ≡ registry.now }
    requires declared { 0 < length registry.now.declared }
    requires rows { length publisher.old.rows ≡ 0 }
    requires passes { All (IsClosed registry.now) passes.old.items }
{
    let first = stay(rt, registry, passes, 0);
    publish_one(rt, alloc, registry, publisher, 1);
    let second = stay(rt, registry, passes, 1);
    publish_one(rt, alloc, registry, publisher, 2);
    let third = stay(rt, registry, passes, 2);
    publish_one(rt, alloc, registry, publisher, 3);
    let fourth = stay(rt, registry, passes, 3);
    publish_one(rt, alloc, registry, publisher, 4);
    hold_last(rt, alloc, registry, publisher, passes, first, fourth);
    leave_one(registry, second);
    leave_one(registry, third);
}

#[test]
fn all_eight_places_in_use(rt: HostRuntime) {
    let alloc = rt.alloc();
    let (registry, mut publisher, mut passes) = opened(&rt, alloc, 1, 8);
    hold_each(&rt, alloc, &registry, &mut publisher, &mut passes);
}

/// Two users are in one version at once.
fn share_one<R: Abort + Wait>(rt: &R, registry: &Registry, passes: &mut Vec<VersionPass>)
    requires { All (IsClosed registry.now) passes.old.items }
{
    let one = stay(rt, registry, passes, 0);
    let other = stay(rt, registry, passes, 0);
    same(rt, &one.held.which(), &other.held.which());
    leave_one(registry, other);
    leave_one(registry, one);
}

#[test]
fn two_users_are_in_one_version(rt: HostRuntime) {
    let (registry, _publisher, mut passes) = opened(&rt, rt.alloc(), 1, 2);
    share_one(&rt, &registry, &mut passes);
}
