//! Four users in threads, while all versions are published.
ghost use Rattle.std.specs.Prelude.{◌≡◌, All, length};
ghost use Rattle.policy_versions.specs.Models.{IsClosed};

use super::opened;
use crate::checks::{holds, same};
use policy_versions::{Publisher, Registry, VersionPass};
use std::alloc::Global;
use std::process::Abort;
use std::sync::Wait;
use std::thread;
use std::thread::Threads;

/// Enters and leaves many times: each policy is the declared one that the use names, and versions never fall.
fn use_often<R: Abort + Wait>(rt: &R, registry: &Registry, pass: &mut VersionPass)
    requires { IsClosed registry.now pass.old }
{
    let mut last = 0;
    for _ in 0..2_000u32 {
        let held = pass.enter(rt, registry);
        let version = held.version();
        let name = held.policy(registry).name();
        let which = held.which();
        pass.leave(registry, held);
        holds(rt, version >= last);
        same(rt, &name, &which);
        last = version;
    }
}

fn run_users<R: Abort + Threads + Wait + Sync>(
    rt: &R,
    registry: &Registry,
    passes: &mut [VersionPass],
)
    requires { All (IsClosed registry.now) passes.old }
{
    let job = |_user: usize, pass: &mut VersionPass|
        requires { IsClosed registry.now pass.now }
    {
        use_often(rt, registry, pass);
    };
    thread::for_each_mut(rt, passes, 4, &job);
}

/// All 4,096 publications, of the two policies in turn.
fn publish_all<R: Abort + Wait>(
    rt: &R,
    alloc: Global,
    registry: &Registry,
    publisher: &mut Publisher,
)
    requires registry { publisher.old.registry ≡ registry.now }
    requires declared { length registry.now.declared ≡ 2 }
    requires rows { length publisher.old.rows ≡ 0 }
{
    for version in 1..4_097u64 {
        let instance = registry
            .instance(alloc, (version % 2) as u32)
            .expect(rt, "memory");
        let published = publisher.publish(rt, registry, instance);
        same(rt, &published, &version);
    }
}

fn run_all<R: Abort + Threads + Wait + Sync>(
    rt: &R,
    alloc: Global,
    registry: &Registry,
    publisher: &mut Publisher,
    passes: &mut [VersionPass],
)
    requires registry { publisher.old.registry ≡ registry.now }
    requires declared { length registry.now.declared ≡ 2 }
    requires rows { length publisher.old.rows ≡ 0 }
    requires passes { All (IsClosed registry.now) passes.old }
{
    let mut users = ||
        requires { All (IsClosed registry.now) passes.now }
    { run_users(rt, registry, passes) };
    let mut publications = || publish_all(rt, alloc, registry, publisher);
    let _ = thread::join_mut(rt, &mut users, &mut publications);
}

#[test]
fn versions_never_fall(rt: HostRuntime) {
    let alloc = rt.alloc();
    let (registry, mut publisher, mut passes) = opened(&rt, alloc, 2, 4);
    run_all(&rt, alloc, &registry, &mut publisher, passes.as_mut_slice());
}
