//! What a seat that keeps its locks tells of itself.
ghost use Rattle.std.specs.Prelude.{◌≡◌, true, false};
ghost use Rattle.shfl_core.specs.Plan as plan;
ghost use Rattle.shfl_core.specs.Waiting as waiting;
ghost use Rattle.shfl_arena.specs.Threads.{mode_held};

use crate::held::{Stand, mode_of};
use crate::kept::KeptSeat;
use shfl_core::{Ask, Nap, Phase, Watch};
use shfl_line::{Form, Mode};

impl KeptSeat {
    pub(crate) fn number(&self) -> u32
        ensures { result ≡ self.now.own.reg.me }
    {
        self.seat.number()
    }

    #[inline(always)]
    pub(crate) fn moving(&self) -> bool
        ensures { result ≡ plan.moving self.now.own }
    {
        self.seat.moving()
    }

    #[inline(always)]
    pub(crate) fn phase(&self) -> Phase
        ensures { result ≡ self.now.own.phase }
    {
        self.seat.phase()
    }

    #[inline(always)]
    pub(crate) fn nap(&self) -> Nap
        ensures { result ≡ self.now.own.nap }
    {
        self.seat.nap()
    }

    /// Whether it stands as after an attempt in this mode whose lock was given back. Then it holds nothing and has no step to make.
    #[inline(always)]
    pub(crate) fn is_free(&self, mode: Mode) -> bool
        ensures { result ≡ true → plan.moving self.now.own ≡ false }
    {
        match mode {
            Mode::Write => matches!(self.stand, Stand::Bare),
            Mode::Read => matches!(self.stand, Stand::Idle),
        }
    }

    /// Whether it stands as after a writer's attempt that took this lock.
    #[inline(always)]
    pub(crate) fn writes_alone(&self, lock: u32) -> bool
        ensures { result ≡ true → plan.moving self.now.own ≡ false }
    {
        matches!(self.stand, Stand::Writes { lock: one } if one == lock)
    }

    /// Whether it holds this lock alone, as a reader.
    #[inline(always)]
    pub(crate) fn reads_alone(&self, lock: u32) -> bool
        ensures { result ≡ true → plan.moving self.now.own ≡ false }
    {
        matches!(self.stand, Stand::Reads { lock: one } if one == lock)
    }

    #[inline(always)]
    pub(crate) fn form(&self) -> Form
        ensures { result ≡ self.now.arena.rules.form }
    {
        self.seat.form()
    }

    pub(crate) fn ask(&self) -> Ask
        ensures { result ≡ waiting.ask self.now.arena.rules self.now.own }
    {
        self.seat.ask()
    }

    pub(crate) fn watch(&self) -> Watch
        ensures { result ≡ waiting.watch_at self.now.own.reg self.now.own.phase }
    {
        self.seat.watch()
    }

    /// How it holds this lock, if it does.
    pub(crate) fn hold(&self, lock: u32) -> Option<Mode>
        ensures { result ≡ mode_held lock self.now.holds }
    {
        mode_of(self.stand, self.others.as_slice(), lock)
    }
}
