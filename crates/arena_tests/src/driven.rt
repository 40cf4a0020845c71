//! A seat together with its arena, whose first lock it uses and whose locks have no values: any of its calls may be made at any time.
ghost use Rattle.std.specs.Prelude.{◌≡◌, ◌<◌, true, false, IfSome, None, Some};
ghost use Rattle.shfl_core.specs.Plan as plan;
ghost use Rattle.shfl_core.specs.Waiting.{MayUse};
ghost use Rattle.shfl_arena.specs.SeatModels.{IsNewAt};
ghost use Rattle.shfl_arena.specs.Threads.{mode_held};

use shfl_arena::{Arena, ArenaSeat, free};
use shfl_core::Phase;
use shfl_line::{Form, Mode};
use std::marker::Model;

#[derive(Drop)]
pub struct Driven<'a> {
    form: Form,
    arena: &'a Arena<()>,
    seat: ArenaSeat<()>,
}

impl<'a> Model for Driven<'a> {
    ghost use Rattle.std.specs.Prelude.{◌≡◌, ◌<◌};

    ghost Value = { Unit {0} };

    ghost view = { λ d. tt };

    ghost invariant = { λ d. (d.seat.arena ≡ d.arena.now.id) × (d.arena.now.id.rules.form ≡ d.form)
        × (0 < d.arena.now.id.shape.locks) × (d.arena.now.id.table.slots ≡ 0) };
}

// Whether it has no step to make, and doesn't hold the first lock.
fn may_enter(seat: &ArenaSeat<()>) -> bool
    ensures rests { result ≡ true → plan.moving seat.now.own ≡ false }
    ensures free { result ≡ true → mode_held 0 seat.now.holds ≡ None }
{
    if seat.moving() || seat.lock() != 0 {
        return false;
    }
    matches!(seat.hold(), None)
}

// How it holds the first lock, where it has no step to make.
fn hold_at_rest(seat: &ArenaSeat<()>) -> Option<Mode>
    ensures rests { IfSome result (λ _. plan.moving seat.now.own ≡ false) }
    ensures holds { IfSome result (λ mode. mode_held 0 seat.now.holds ≡ Some mode) }
{
    if seat.moving() || seat.lock() != 0 {
        return None;
    }
    seat.hold()
}

impl<'a> Driven<'a> {
    pub fn new(form: Form, arena: &'a Arena<()>, seat: ArenaSeat<()>) -> Driven<'a>
        requires seat { IsNewAt arena.now.id seat }
        requires form { arena.now.id.rules.form ≡ form }
        requires some { 0 < arena.now.id.shape.locks }
        requires none { arena.now.id.table.slots ≡ 0 }
    {
        Driven { form, arena, seat }
    }

    // In a form without readers every seat writes.
    fn mode(form: Form, mode: Mode) -> Mode
        ensures { MayUse form result }
    {
        match form {
            Form::Spin | Form::Park => Mode::Write,
            Form::Rw | Form::RwPark => mode,
        }
    }

    pub fn acquire(&mut self, mode: Mode) -> bool {
        if !may_enter(&self.seat) {
            return false;
        }
        let mode = Driven::mode(self.form, mode);
        self.seat.acquire(0, mode)
    }

    /// So many steps, each with the choice no.
    pub fn steps(&mut self, count: u32) {
        for _ in 0..count {
            let _ = self.seat.step(self.arena, false);
        }
    }

    /// The word that refuses it, where one does. A seat that may not enter finds nothing.
    pub fn attempt(&mut self, mode: Mode) -> Result<(), u64> {
        if !may_enter(&self.seat) {
            return Err(0);
        }
        let mode = Driven::mode(self.form, mode);
        self.seat.attempt(self.arena, 0, mode)
    }

    /// Gives the lock back, if it holds it and has no step to make.
    pub fn give_back(&mut self) -> bool {
        let Some(mode) = hold_at_rest(&self.seat) else {
            return false;
        };
        free(self.arena, &mut self.seat, 0, mode);
        true
    }

    pub fn phase(&self) -> Phase {
        self.seat.phase()
    }
}
