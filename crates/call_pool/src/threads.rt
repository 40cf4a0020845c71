//! Takers in threads.
ghost use Rattle.std.specs.Prelude.{◌≡◌, ◌<◌, ℕ, true, All, length, slice_index_or};
ghost use Rattle.call_pool.specs.declared.logged.Logged.{Logged};
ghost use Rattle.call_pool.specs.Pools.{AreNumbered};
ghost use Rattle.call_pool.specs.Rounds.{AreRoundsBy, HasAsked};
ghost use Rattle.round_log.specs.Logs.{InRounds, told_in};

use crate::logged::Logged;
use round_log::RoundLog;
use shfl_policy::Policy;
use std::sync::Wait;
use std::thread;
use std::thread::Threads;
use syn_outer::Gate;

/// The most threads at a time.
const THREADS: usize = 16;

/// Calls that takers take, each by a pass of its own.
pub trait SharedCalls {
    type Pass: Drop + Send;

    ghost use Rattle.std.specs.Prelude.{ℕ, Bool, List, Option};
    ghost use Rattle.shfl_line.specs.declared.choosers.Told.{Told};

    /// The pass is one of these calls.
    ghost is_pass: { Self → Self.Pass → Type 0 };

    /// The pass's number.
    ghost number: { Self.Pass → ℕ };

    /// Whether the pass was answered that no call is left.
    ghost ended: { Self.Pass → Bool };

    /// Between these two states the pass asked its policy just what a chooser was told between these two lists.
    ghost asks: { Self.Pass → Self.Pass → (told told' : Option (List Told)) → Type 0 };

    /// Takes calls and makes them until none is left. The policy answers, and what it is told goes into the log. Takes no memory but the
    /// log's.
    fn take_rest<G: Gate, R: Wait>(
        &self,
        rt: &R,
        pass: &mut Self::Pass,
        policy: &Policy,
        log: &mut RoundLog,
        gate: &G,
    )
        requires pass { is_pass self.now pass.old }
        requires log { AreRoundsBy policy.now log.old }
        ensures pass { is_pass self.now pass.new }
        ensures number { number pass.new ≡ number pass.old }
        ensures ended { ended pass.new ≡ true }
        ensures log { AreRoundsBy policy.now log.new }
        ensures asked { asks pass.old pass.new (told_in log.old) (told_in log.new) }
        ensures whole { InRounds (told_in log.old) (told_in log.new) };
}

/// All takers take calls until none is left, each in a thread of its own. Where a thread can't be had, the caller does its work.
pub fn take_in_threads<P: SharedCalls + Sync, G: Gate + Sync, R: Threads + Wait + Sync>(
    rt: &R,
    calls: &P,
    policy: &Policy,
    gate: &G,
    takers: &mut [Logged<P::Pass>],
)
    requires passes { All (λ t. P.is_pass calls.now t.pass) takers.old }
    requires numbered { AreNumbered (λ t. P.number t.pass) takers.old }
    requires logs { All (λ t. AreRoundsBy policy.now t.log) takers.old }
    ensures passes { All (λ t. P.is_pass calls.now t.pass) takers.new }
    ensures numbered { AreNumbered (λ t. P.number t.pass) takers.new }
    ensures len { length takers.new ≡ length takers.old }
    ensures ended { All (λ t. P.ended t.pass ≡ true) takers.new }
    ensures logs { All (λ t. AreRoundsBy policy.now t.log) takers.new }

    // Each pass asked just what its log has more since, in whole rounds.
    ensures asked { (k : ℕ) (d : Logged _) → k < length takers.old
        → HasAsked P.asks (slice_index_or takers.old k d) (slice_index_or takers.new k d) }
{
    let job = |_place: usize, taker: &mut Logged<P::Pass>|
        requires { P.is_pass calls.now taker.now.pass × AreRoundsBy policy.now taker.now.log }
        ensures { P.is_pass calls.entry.now taker.exit.now.pass
            × (P.number taker.exit.now.pass ≡ P.number taker.entry.now.pass)
            × (P.ended taker.exit.now.pass ≡ true)
            × AreRoundsBy policy.entry.now taker.exit.now.log
            × HasAsked P.asks taker.entry.now taker.exit.now }
    {
        let Logged { pass, log } = taker;
        calls.take_rest(rt, pass, policy, log, gate);
    };
    thread::for_each_mut(rt, takers, THREADS, &job);
}
