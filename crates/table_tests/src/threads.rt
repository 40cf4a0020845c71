//! Threads that take a lock in turn. Each writer marks the value behind the lock while it is inside.
ghost use Rattle.std.specs.Prelude.{◌≡◌, [], ◌<◌, true, All, length, vec_len, IfOk};
ghost use Rattle.shfl_core.specs.Plan as plan;
ghost use Rattle.shfl_core.specs.Waiting.{MayUse};
ghost use Rattle.shfl_line.specs.declared.events.Mode.TheVariants.{Write};
ghost use Rattle.shfl_table.specs.PassModel.{AreIn, IsIdleAt};

use crate::checks::same;
use crate::crowd::{Alternating, Crowd, Tally, mark};
use shared_tests::{FAR, FORMS, PLAIN};
use shfl_line::{Always, Attr, BySocket, Chooser, Form, Mode, Never};
use shfl_table::{Pass, SharedBoard, free, open, wait_for};
use std::alloc::Global;
use std::process::Abort;
use std::sync::Wait;
use std::sync::atomic::Ordering;
use std::thread;
use std::thread::Threads;

/// How often each of the sixteen threads holds the lock. One of them lingers in every so many holds, so that others queue.
const HOLDS: u32 = 50;

const LINGERS: u32 = 25;

/// What a holder does inside: how often writers held the lock, where it writes.
fn stay(board: &SharedBoard<Tally>, crowd: &Crowd, pass: &mut Pass<Tally>, mode: Mode) -> u64
    requires board { pass.old.board ≡ board.now.id }
    requires holds { (plan.is_held pass.old.own.phase ≡ true) × (pass.old.own.reg.mode ≡ mode) }
    requires within { AreIn (λ (_ : Tally). []) pass.old.history pass.old.values }
    requires one { mode ≡ Write → length pass.old.values ≡ 1 }
    ensures pass { pass.new ≡ record pass.old { values = pass.new.values } }
    ensures within { AreIn (λ (_ : Tally). []) pass.new.history pass.new.values }
{
    let readers = &crowd.readers;
    let writers = &crowd.writers;
    match mode {
        Mode::Read => {
            let _ = readers.fetch_add(1, Ordering::SeqCst);
            crowd.note(writers.load(Ordering::SeqCst) == 0);
            let _ = readers.fetch_sub(1, Ordering::SeqCst);
            0
        }
        Mode::Write => {
            let others = writers.fetch_add(1, Ordering::SeqCst);
            crowd.note(others == 0 && readers.load(Ordering::SeqCst) == 0);
            let (was_empty, _) = mark(board, pass, 0, 1);
            let (was_mine, holds) = mark(board, pass, 1, 0);
            crowd.note(was_empty && was_mine);
            let _ = writers.fetch_sub(1, Ordering::SeqCst);
            holds
        }
    }
}

/// Once in and out of the lock.
fn hold_once<C: Chooser, R: Wait>(
    rt: &R,
    board: &SharedBoard<Tally>,
    crowd: &Crowd,
    pass: &mut Pass<Tally>,
    mode: Mode,
    attr: &Attr,
    chooser: &mut C,
    lingers: bool,
) -> u64
    requires one { board.now.id.table.slots ≡ 1 }
    requires mode { MayUse board.now.id.rules.form mode }
    requires pass { IsIdleAt board.now.id pass.old }
    ensures { IsIdleAt board.now.id pass.new }
{
    wait_for(rt, board, pass, mode, attr, chooser, crowd);
    if lingers {
        crowd.linger();
    }
    let holds = stay(board, crowd, pass, mode);
    free(board, pass);
    holds
}

/// In the forms with readers every second hold is a reader's.
fn mode_of(form: Form, hold: u32) -> Mode
    ensures { MayUse form result }
{
    match form {
        Form::Spin | Form::Park => Mode::Write,
        Form::Rw | Form::RwPark => {
            if hold % 2 == 0 {
                Mode::Write
            } else {
                Mode::Read
            }
        }
    }
}

fn hold_often<C: Chooser, R: Wait>(
    rt: &R,
    board: &SharedBoard<Tally>,
    crowd: &Crowd,
    pass: &mut Pass<Tally>,
    form: Form,
    chooser: &mut C,
)
    requires one { board.now.id.table.slots ≡ 1 }
    requires form { board.now.id.rules.form ≡ form }
    requires pass { IsIdleAt board.now.id pass.old }
    ensures { IsIdleAt board.now.id pass.new }
{
    let attr = attr_of(pass.number());
    let may_linger = pass.number() == 0;
    for hold in 0..HOLDS {
        let mode = mode_of(form, hold);
        let lingers = may_linger && hold % LINGERS == 0;
        let _ = hold_once(rt, board, crowd, pass, mode, &attr, chooser, lingers);
    }
}

/// Two sockets.
fn attr_of(pass: u32) -> Attr {
    if pass % 2 == 0 { PLAIN } else { FAR }
}

fn hold_by<R: Wait>(
    rt: &R,
    board: &SharedBoard<Tally>,
    crowd: &Crowd,
    pass: &mut Pass<Tally>,
    form: Form,
    policy: u32,
)
    requires one { board.now.id.table.slots ≡ 1 }
    requires form { board.now.id.rules.form ≡ form }
    requires pass { IsIdleAt board.now.id pass.old }
    ensures { IsIdleAt board.now.id pass.new }
{
    match policy {
        0 => hold_often(rt, board, crowd, pass, form, &mut Never),
        1 => hold_often(rt, board, crowd, pass, form, &mut Always),
        2 => hold_often(rt, board, crowd, pass, form, &mut BySocket),
        _ => hold_often(
            rt,
            board,
            crowd,
            pass,
            form,
            &mut Alternating { yes: false },
        ),
    }
}

/// Those of sixteen passes.
const ATTRS: [Attr; 16] = [
    PLAIN, FAR, PLAIN, FAR, PLAIN, FAR, PLAIN, FAR, PLAIN, FAR, PLAIN, FAR, PLAIN, FAR, PLAIN, FAR,
];

fn opened(rt: &impl Abort, alloc: Global, form: Form) -> (SharedBoard<Tally>, Vec<Pass<Tally>>)
    ensures board { (result.0.id.table.slots ≡ 1) × (result.0.id.rules.form ≡ form) }
    ensures passes { (0 < vec_len result.1) × All (IsIdleAt result.0.id) result.1.items }
{
    let mut values = Vec::with_capacity(alloc, 1).ok().expect(rt, "memory");
    values.push_reserved(Tally {
        holds: 0,
        inside: 0,
    });
    let Ok(opened) = open(alloc, &ATTRS, form, 1024, values) else {
        panic!(rt; "memory for a board")
    };
    opened
}

/// Sixteen threads hold the lock in turn: how often writers held it, and how often somebody met one whom it keeps out.
fn crowded<R: Abort + Threads + Wait + Sync>(
    rt: &R,
    alloc: Global,
    form: Form,
    policy: u32,
) -> (u64, u64) {
    let (board, mut passes) = opened(rt, alloc, form);
    let crowd = Crowd::new();
    let threads = passes.len();
    let job = |_i: usize, pass: &mut Pass<Tally>|
        requires one { board.id.table.slots ≡ 1 }
        requires form { board.id.rules.form ≡ form }
        requires pass { IsIdleAt board.id pass.now }
        ensures { IsIdleAt board.id pass.exit.now }
    { hold_by(rt, &board, &crowd, pass, form, policy) };
    thread::for_each_mut(rt, &mut passes, threads, &job);
    let last = &mut passes[0];
    let holds = hold_once(
        rt,
        &board,
        &crowd,
        last,
        Mode::Write,
        &PLAIN,
        &mut Never,
        false,
    );
    let met = &crowd.met;
    (holds, met.load(Ordering::SeqCst))
}

fn writers_of(form: Form) -> u64 {
    match form {
        Form::Spin | Form::Park => 16 * HOLDS as u64 + 1,
        Form::Rw | Form::RwPark => 16 * (HOLDS / 2) as u64 + 1,
    }
}

#[test]
fn nobody_meets_a_writer_inside(rt: HostRuntime) {
    for form in FORMS {
        for policy in 0..4 {
            let counts = crowded(&rt, rt.alloc(), form, policy);
            same(&rt, &counts, &(writers_of(form), 0));
        }
    }
}
