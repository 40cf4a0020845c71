//! Four threads transfer between two accounts behind one lock, and look at them beside one another.
#![tactic(auto)]

ghost use Rattle.std.specs.Prelude.{◌≡◌, ℕ, ◌+◌, ◌%◌, ◌<◌, ◌∷◌, [], All, vec_len, IfSome};
ghost use Rattle.hist_log.specs.History.{operations, state_left, IsLegal};
ghost use Rattle.rw_cell.specs.RwCells.{AreInOrder, IsPassOf, number};
ghost use Rattle.shared_accounts.specs.Accounts.{call_numbers, reply_numbers, state_numbers, reply_at, state_after};
ghost use Rattle.shared_accounts.specs.Rounds.{rounds, calls_by, IsReady, HasWorked};

mod accounts;

use accounts::{Accounts, Call};
use bpf_isa::Profile;
use hist_log::{Entry, merge};
use policy_source::PolicySource;
use rw_cell::{RwCell, RwPass};
use shfl_line::{Attr, Form};
use shfl_policy::{Policy, load};
use std::alloc::Global;
use std::sync::Wait;
use std::thread::Threads;
use std::{io, thread};
use syn_outer::OpenGate;

/// Moves a waiter up where it is of the asking pass's socket.
const SAME_SOCKET: &str =
    "61120000000000006111040000000000b7000000010000001d21010000000000b7000000000000009500000000000000";

/// How often each thread transfers and looks.
const ROUNDS: u32 = 100;

// The transfers of one thread, each with a look at the balance after it.
fn work<R: Wait>(rt: &R, bank: &RwCell<Accounts>, policy: &Policy, pass: &mut RwPass<Accounts>)
    requires bank { pass.old.cell ≡ bank.now.id }
    requires ready { IsReady pass.old }
    ensures same { (pass.new.cell ≡ pass.old.cell) × (pass.new.opening ≡ pass.old.opening)
        × (number pass.new ≡ number pass.old) }
    ensures worked { HasWorked pass.new }
{
    let mut chooser = policy.running();
    let amount = 1 + pass.number() % 4;
    for _round in 0..ROUNDS {
        let transfer = Call::Transfer { amount };
        let _ = bank.write(rt, pass, &mut chooser, &OpenGate, &transfer);
        let _ = bank.read(rt, pass, &mut chooser, &OpenGate, &Call::Balance);
    }
}

// Each pass works in a thread of its own.
fn work_all<R: Threads + Wait + Sync>(
    rt: &R,
    bank: &RwCell<Accounts>,
    policy: &Policy,
    passes: &mut [RwPass<Accounts>],
)
    requires bank { All (IsPassOf bank.now) passes.old }
    requires in_order { AreInOrder passes.old }
    requires ready { All IsReady passes.old }
    ensures bank { All (IsPassOf bank.now) passes.new }
    ensures in_order { AreInOrder passes.new }
    ensures worked { All HasWorked passes.new }
{
    let job = |_place: usize, pass: &mut RwPass<Accounts>|
        requires { (pass.now.cell ≡ bank.now.id) × IsReady pass.now }
        ensures { (pass.exit.now.cell ≡ pass.entry.now.cell)
            × (pass.exit.now.opening ≡ pass.entry.now.opening)
            × (number pass.exit.now ≡ number pass.entry.now)
            × HasWorked pass.exit.now }
    {
        work(rt, bank, policy, pass);
    };
    thread::for_each_mut(rt, passes, 4, &job);
}

// Closes the bank: the accounts as they then are, and all calls in one order.
fn close(
    alloc: Global,
    bank: RwCell<Accounts>,
    passes: Vec<RwPass<Accounts>>,
) -> Option<(Accounts, Vec<Entry<Accounts>>)>
    requires bank { All (IsPassOf bank) passes.items }
    requires all { vec_len passes ≡ bank.count }
    requires in_order { AreInOrder passes.items }
    requires worked { All HasWorked passes.items }
    ensures legal { IfSome result (λ r. IsLegal reply_at state_after bank.opening
        (operations call_numbers reply_numbers r.1.items)) }

    // The history leaves the balances that are given.
    ensures balances { IfSome result (λ r. state_numbers r.0
        ≡ state_left state_after bank.opening
        (operations call_numbers reply_numbers r.1.items)) }

    // It has the rounds of each worker, in order, and no other calls.
    ensures calls { IfSome result (λ r. (k : ℕ) → k < bank.count
        → calls_by k r.1.items ≡ rounds (1 + k % 4) ROUNDS) }
    ensures nobody_else { IfSome result (λ r. All (λ e. e.worker < bank.count) r.1.items) }
{
    let (mut copies, writes, reads) = bank.close(passes);
    let history = merge(alloc, &writes, &reads).ok()?;
    Some((copies.pop()?, history))
}

// An attribute record of a socket.
fn of_socket(socket: u16) -> Attr {
    Attr {
        socket,
        prio: 0,
        class: 0,
        kind: 0,
    }
}

/// What four threads leave of two accounts, with the one legal history of all their calls. `None`
/// where there is no memory.
fn run<R: Threads + Wait + Sync>(
    rt: &R,
    alloc: Global,
    policy: &Policy,
) -> Option<(Accounts, Vec<Entry<Accounts>>)>
    ensures legal { IfSome result (λ r. IsLegal reply_at state_after (5000 ∷ 0 ∷ [])
        (operations call_numbers reply_numbers r.1.items)) }

    // The history leaves the balances that are given.
    ensures balances { IfSome result (λ r. state_numbers r.0
        ≡ state_left state_after (5000 ∷ 0 ∷ [])
        (operations call_numbers reply_numbers r.1.items)) }

    // It has the rounds of each worker, in order, and no other calls: worker k transfers 1 + k.
    ensures calls { IfSome result (λ r. (k : ℕ) → k < 4
        → calls_by k r.1.items ≡ rounds (1 + k) 100) }
    ensures nobody_else { IfSome result (λ r. All (λ e. e.worker < 4) r.1.items) }
{
    let opening = Accounts {
        first: 5000,
        second: 0,
        spare: 800,
    };
    let Ok(copies) = vec![in alloc; opening, opening, opening, opening] else {
        return None;
    };
    let attrs = [of_socket(0), of_socket(1), of_socket(0), of_socket(1)];
    let opened = RwCell::<Accounts>::open(alloc, copies, &attrs, Form::RwPark, 1024, &[200; 4]);
    let Ok((bank, mut passes)) = opened else {
        return None;
    };
    work_all(rt, &bank, policy, &mut passes);
    close(alloc, bank, passes)
}

// The policy of these digits.
fn policy_of(alloc: Global, digits: &str) -> Option<Policy> {
    let should = Some(hex::decode(alloc, digits).ok()?);
    load(alloc, 0, Profile::One, &PolicySource { should, skip: None }).ok()
}

fn main(rt: HostRuntime) -> io::Result<()> {
    let Some(policy) = policy_of(rt.alloc(), SAME_SOCKET) else {
        return println!(rt; "the policy is refused, or there is no memory");
    };
    let Some((accounts, history)) = run(&rt, rt.alloc(), &policy) else {
        return println!(rt; "there is no memory");
    };
    println!(rt; "calls {}", history.len())?;
    println!(rt; "balances {} {}", accounts.first, accounts.second)?;
    println!(rt; "the history is legal")
}
