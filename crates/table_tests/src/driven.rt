//! A pass together with its board, which has no values: any of its calls may be made at any time.
ghost use Rattle.std.specs.Prelude.{◌≡◌, ◌<◌, ◌≤◌, All, length};
ghost use Rattle.shfl_core.specs.Waiting.{MayUse};
ghost use Rattle.shfl_table.specs.PassModel.{IsIdleAt};

use shfl_core::{Ask, Nap, PassState, Phase, Watch};
use shfl_line::{Attr, Form, Mode, NoMemory};
use shfl_table::{Pass, SharedBoard, open};
use std::alloc::Global;
use std::marker::Model;
use std::process::Abort;

#[derive(Drop)]
pub struct Driven<'a> {
    form: Form,
    board: &'a SharedBoard<()>,
    pass: Pass<()>,
}

impl<'a> Model for Driven<'a> {
    ghost use Rattle.std.specs.Prelude.{◌≡◌};

    ghost Value = { Unit {0} };

    ghost view = { λ d. tt };

    ghost invariant = { λ d. (d.pass.board ≡ d.board.now.id) × (d.board.now.id.rules.form ≡ d.form)
        × (d.board.now.id.table.slots ≡ 0) };
}

impl<'a> Driven<'a> {
    pub fn new(form: Form, board: &'a SharedBoard<()>, pass: Pass<()>) -> Driven<'a>
        requires pass { IsIdleAt board.now.id pass }
        requires form { board.now.id.rules.form ≡ form }
        requires none { board.now.id.table.slots ≡ 0 }
    {
        Driven { form, board, pass }
    }

    // In a form without readers every pass writes.
    fn mode(form: Form, mode: Mode) -> Mode
        ensures { MayUse form result }
    {
        match form {
            Form::Spin | Form::Park => Mode::Write,
            Form::Rw | Form::RwPark => mode,
        }
    }

    pub fn acquire(&mut self, mode: Mode) -> bool {
        let mode = Driven::mode(self.form, mode);
        self.pass.acquire(mode)
    }

    pub fn step(&mut self, choice: bool) -> bool {
        self.pass.step(self.board, choice)
    }

    pub fn release(&mut self) -> bool {
        let is_held = self.pass.held();
        is_held && self.pass.release()
    }

    /// The word that refuses it, where one does. A pass that isn't idle finds nothing.
    pub fn attempt(&mut self, mode: Mode) -> Result<(), u64> {
        if !matches!(self.pass.phase(), Phase::Idle) {
            return Err(0);
        }
        let mode = Driven::mode(self.form, mode);
        self.pass.attempt(self.board, mode)
    }

    pub fn ask(&self) -> Ask {
        self.pass.ask()
    }

    pub fn watch(&self) -> Watch {
        self.pass.watch()
    }

    pub fn phase(&self) -> Phase {
        self.pass.phase()
    }

    pub fn nap(&self) -> Nap {
        self.pass.nap()
    }

    /// Where it stands: phase, registers and park state.
    pub fn standing(&self) -> PassState {
        self.pass.standing()
    }

    /// The lock word, as an attempt to write finds it: an idle pass has the lock for a moment where it is free. Else `None`.
    pub fn lock_word(&mut self) -> Option<u64> {
        match self.attempt(Mode::Write) {
            Err(found) => Some(found),
            Ok(()) => {
                let freed = self.release() && self.step(false);
                if freed && !self.moving() {
                    Some(0)
                } else {
                    None
                }
            }
        }
    }

    pub fn held(&self) -> bool {
        self.pass.held()
    }

    pub fn resting(&self) -> bool {
        self.pass.resting()
    }

    pub fn moving(&self) -> bool {
        self.pass.moving()
    }

    /// So many steps, each with the choice no.
    pub fn steps(&mut self, count: u32) {
        for _ in 0..count {
            let _ = self.step(false);
        }
    }

    /// Frees the lock, if it holds it.
    pub fn give_back(&mut self) {
        let _ = self.release();
        self.steps(1);
    }

    /// So many steps of a pass on this socket, which groups the waiters of its socket.
    pub fn steps_by_socket(&mut self, socket: u16, count: u32) {
        for _ in 0..count {
            let choice = match self.ask() {
                Ask::Should { waiter, .. } => waiter.socket == socket,
                _ => false,
            };
            let _ = self.step(choice);
        }
    }
}

/// A lock without values, and its passes.
pub fn opened(
    rt: &impl Abort,
    alloc: Global,
    form: Form,
    attrs: &[Attr],
) -> (SharedBoard<()>, Vec<Pass<()>>)
    requires attrs { (0 < length attrs.now) × (length attrs.now ≤ 8) }
    ensures form { result.0.id.rules.form ≡ form }
    ensures none { result.0.id.table.slots ≡ 0 }
    ensures passes { All (IsIdleAt result.0.id) result.1.items }
{
    open::<()>(alloc, attrs, form, 1024, Vec::new(alloc))
        .ok()
        .expect(rt, "memory for a board")
}

/// Each pass with its board.
pub fn drive_all<'a>(
    alloc: Global,
    form: Form,
    board: &'a SharedBoard<()>,
    passes: Vec<Pass<()>>,
) -> Result<Vec<Driven<'a>>, NoMemory>
    requires passes { All (IsIdleAt board.now.id) passes.items }
    requires form { board.now.id.rules.form ≡ form }
    requires none { board.now.id.table.slots ≡ 0 }
{
    let mut driven = Vec::new(alloc);
    for pass in passes {
        if driven.push(Driven::new(form, board, pass)).is_err() {
            return Err(NoMemory);
        }
    }
    Ok(driven)
}

/// The same, where there is memory.
pub fn drive<'a>(
    rt: &impl Abort,
    alloc: Global,
    form: Form,
    board: &'a SharedBoard<()>,
    passes: Vec<Pass<()>>,
) -> Vec<Driven<'a>>
    requires passes { All (IsIdleAt board.now.id) passes.items }
    requires form { board.now.id.rules.form ≡ form }
    requires none { board.now.id.table.slots ≡ 0 }
{
    drive_all(alloc, form, board, passes)
        .ok()
        .expect(rt, "memory for passes")
}
