//! What a worker does.
ghost use Rattle.std.specs.Prelude.{◌≡◌, ℕ, false, List, [], ◌∷◌, ◌++◌, length};
ghost use Rattle.std.specs.List.{AllByRecursion};
ghost use Rattle.trace_text.specs.declared.trace.TraceCall.{TraceCall};
ghost use Rattle.trace_text.specs.Histories.{made_by, made_in, of_worker};
ghost use Rattle.trace_text.specs.Traces.{IsCallOf};
ghost use Rattle.policy_versions.specs.Models.{IsClosed};
ghost use Rattle.shfl_workers.specs.Asked.{AskInTurn, LogsTurns};
ghost use Rattle.policy_versions.specs.Noting.{IsLogOf};
ghost use Rattle.round_log.specs.Logs.{told_in, InRounds};
ghost use Rattle.shfl_workers.specs.Progress.{Progress};

use crate::attaching::Attaching;
use crate::shared_dir::SharedDir;
use policy_versions::{Registry, UsingChooser, VersionPass};
use shfl_line::Chooser;
use std::sync::Wait;
use syn_outer::Gate;
use trace_text::{TraceAct, TraceCall};

// The next call of the trace, where it is this worker's.
fn take_turn<D: SharedDir, C: Chooser, G: Gate, R: Wait>(
    rt: &R,
    dir: &D,
    registry: &Registry,
    gate: &G,
    pass: &mut D::Pass,
    chooser: &mut C,
    attaching: &mut Option<Attaching>,
    call: &TraceCall,
)
    requires pass { D.is_pass dir.now pass.old }
    requires call { (workers : ℕ) × (policies : ℕ)
        × IsCallOf workers (D.room dir.now) policies call.now }
    requires progress { (done : List TraceCall) × (ahead : List TraceCall)
        × Progress D.made D.left registry.now (D.worker pass.old) done (call.now ∷ ahead)
        pass.old attaching.old }
    ensures pass { D.is_pass dir.now pass.new }
    ensures worker { D.worker pass.new ≡ D.worker pass.old }
    ensures progress { (done ahead : List TraceCall)
        → Progress D.made D.left registry.now (D.worker pass.old) done (call.now ∷ ahead)
        pass.old attaching.old
        → Progress D.made D.left registry.now (D.worker pass.old) (done ++ call.now ∷ []) ahead
        pass.new attaching.new }
    ensures asked { AskInTurn D.asks
        (of_worker (D.worker pass.old) (made_by call.now.worker call.now.act))
        pass.old pass.new (C.told chooser.old) (C.told chooser.new) }
    ensures whole { InRounds (C.told chooser.old) (C.told chooser.new) }
    ensures in_round { C.in_round chooser.old ≡ false → C.in_round chooser.new ≡ false }
    ensures home { C.home chooser.new ≡ C.home chooser.old }
{
    if call.worker != D::worker_of(pass) {
        return;
    }
    match call.act {
        TraceAct::Dir(dir_call) => dir.call(rt, pass, chooser, gate, &dir_call),
        TraceAct::Attach(policy) => match attaching {
            Some(attaching) => attaching.attach(rt, registry, policy),
            None => unreachable!(),
        },
    }
}

// All calls of the trace that are this worker's, in order.
fn take_turns<D: SharedDir, C: Chooser, G: Gate, R: Wait>(
    rt: &R,
    dir: &D,
    registry: &Registry,
    gate: &G,
    pass: &mut D::Pass,
    chooser: &mut C,
    attaching: &mut Option<Attaching>,
    calls: &[TraceCall],
)
    requires pass { D.is_pass dir.now pass.old }
    requires calls { (workers : ℕ) × (policies : ℕ)
        × AllByRecursion (IsCallOf workers (D.room dir.now) policies) calls.now }
    requires progress { Progress D.made D.left registry.now (D.worker pass.old) [] calls.now
        pass.old attaching.old }
    ensures pass { D.is_pass dir.now pass.new }
    ensures worker { D.worker pass.new ≡ D.worker pass.old }
    ensures progress { Progress D.made D.left registry.now (D.worker pass.old) calls.now []
        pass.new attaching.new }
    ensures asked { AskInTurn D.asks (of_worker (D.worker pass.old) (made_in calls.now))
        pass.old pass.new (C.told chooser.old) (C.told chooser.new) }
    ensures whole { InRounds (C.told chooser.old) (C.told chooser.new) }
    ensures in_round { C.in_round chooser.old ≡ false → C.in_round chooser.new ≡ false }
    ensures home { C.home chooser.new ≡ C.home chooser.old }
{
    for call in calls {
        take_turn(rt, dir, registry, gate, pass, chooser, attaching, call);
    }
}

/// Makes all calls of the trace that are this worker's, in order, and publishes the policies that it attaches between them. Each round
/// at the lock is answered by the version that is current as it begins, and goes into the user's log; `moves` is the chooser's. Takes no memory
/// but the log's.
pub fn work<D: SharedDir, G: Gate, R: Wait>(
    rt: &R,
    dir: &D,
    registry: &Registry,
    moves: bool,
    gate: &G,
    pass: &mut D::Pass,
    user: &mut VersionPass,
    attaching: &mut Option<Attaching>,
    calls: &[TraceCall],
)
    requires pass { D.is_pass dir.now pass.old }
    requires user { IsClosed registry.now user.old }
    requires log { IsLogOf registry.now.declared user.old.seen user.old.log }
    requires calls { (workers : ℕ) × (policies : ℕ)
        × AllByRecursion (IsCallOf workers (D.room dir.now) policies) calls.now }
    requires progress { Progress D.made D.left registry.now (D.worker pass.old) [] calls.now
        pass.old attaching.old }
    ensures pass { D.is_pass dir.now pass.new }
    ensures worker { D.worker pass.new ≡ D.worker pass.old }
    ensures user { IsClosed registry.now user.new }
    ensures log { IsLogOf registry.now.declared user.new.seen user.new.log }
    ensures asked { LogsTurns D.asks (of_worker (D.worker pass.old) (made_in calls.now))
        pass.old pass.new user.old.log user.new.log }
    ensures whole { InRounds (told_in user.old.log) (told_in user.new.log) }
    ensures progress { Progress D.made D.left registry.now (D.worker pass.old) calls.now []
        pass.new attaching.new }
{
    let mut chooser = UsingChooser::new(registry, user, moves);
    take_turns(
        rt,
        dir,
        registry,
        gate,
        pass,
        &mut chooser,
        attaching,
        calls,
    );
    let _user = chooser.done(registry);
}
