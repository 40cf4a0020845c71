//! Pools with one taker.
ghost use Rattle.std.specs.Prelude.{◌≤◌, All, length};
ghost use Rattle.dir_table.specs.Numbers.{call_numbers, state_numbers};
ghost use Rattle.dir_table.specs.Meanings.{Admits};
ghost use Rattle.call_pool.specs.Pools.{IsPassOf};

use crate::checks::{holds, same};
use crate::directory::opened;
use call_pool::{Pool, PoolPass};
use dir_table::{Dir, DirCall, DirReply};
use hist_log::Receipt;
use shared_tests::PLAIN;
use shfl_line::Never;
use std::alloc::Global;
use std::process::Abort;
use std::sync::Wait;
use syn_outer::OpenGate;

/// The pass takes a call, which is answered so, or finds none.
fn takes<R: Abort + Wait>(
    rt: &R,
    pool: &Pool<Dir>,
    pass: &mut PoolPass<Dir>,
    due: Option<(u32, DirReply, Receipt)>,
)
    requires { IsPassOf call_numbers Admits pool.now pass.old }
    ensures { IsPassOf call_numbers Admits pool.now pass.new }
{
    let taken = pool.take(rt, pass, &mut Never, &OpenGate);
    same(rt, &taken, &due);
}

/// The pass finds no call, and has ended then.
fn finds_none<R: Abort + Wait>(rt: &R, pool: &Pool<Dir>, pass: &mut PoolPass<Dir>)
    requires { IsPassOf call_numbers Admits pool.now pass.old }
    ensures { IsPassOf call_numbers Admits pool.now pass.new }
{
    takes(rt, pool, pass, None);
    holds(rt, pass.ended());
}

const MAKES: [DirCall; 2] = [DirCall::Make { dir: 0, name: 0 }; 2];

/// A name is made once.
fn makes_once<R: Abort + Wait>(rt: &R, pool: &Pool<Dir>, pass: &mut PoolPass<Dir>)
    requires { IsPassOf call_numbers Admits pool.now pass.old }
    ensures { IsPassOf call_numbers Admits pool.now pass.new }
{
    let first = (0, DirReply::Ino(1), Receipt { place: 0 });
    takes(rt, pool, pass, Some(first));
    let second = (1, DirReply::Exists, Receipt { place: 1 });
    takes(rt, pool, pass, Some(second));
    holds(rt, !pass.ended());
}

// A pool of these calls, and its only pass.
fn with_one_pass(
    rt: &impl Abort,
    alloc: Global,
    dir: Dir,
    calls: &[DirCall],
) -> (Pool<Dir>, PoolPass<Dir>)
    requires few { length calls.now ≤ 2 }
    requires spare { length calls.now ≤ dir.spare }
    requires admitted { All (λ c. Admits (state_numbers dir) (call_numbers c)) calls.now }
    ensures { IsPassOf call_numbers Admits result.0 result.1 }
{
    let Ok((pool, mut passes)) = Pool::<Dir>::open(alloc, dir, &[PLAIN], 1024, calls) else {
        panic!(rt; "memory")
    };
    let Some(pass) = passes.pop() else {
        panic!(rt; "a pass")
    };
    (pool, pass)
}

#[test]
fn a_name_is_made_once(rt: HostRuntime) {
    let dir = opened(&rt, rt.alloc(), 1, 2);
    let (pool, mut pass) = with_one_pass(&rt, rt.alloc(), dir, &MAKES);
    makes_once(&rt, &pool, &mut pass);
    finds_none(&rt, &pool, &mut pass);
    finds_none(&rt, &pool, &mut pass);
}

#[test]
fn a_pool_of_no_call_ends_at_once(rt: HostRuntime) {
    let dir = opened(&rt, rt.alloc(), 1, 0);
    let (pool, mut pass) = with_one_pass(&rt, rt.alloc(), dir, &[]);
    finds_none(&rt, &pool, &mut pass);
}
