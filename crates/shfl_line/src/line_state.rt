//! Line states: the holders, the wait queue, the detached waiter, the shuffler and the batch numbers.
ghost use Rattle.std.specs.Prelude.{◌≡◌, ◌≢◌, ℕ, ◌<◌, ◌≤◌, List, IfOk, length};
ghost use Rattle.shfl_line.specs.Line.{Line, empty};

mod asking;
mod filling;
mod scans;
mod stepping;

use crate::NoMemory;
use crate::events::{Mode, Role};
use std::alloc::Global;
use std::marker::Model;

/// What a lock shows of itself between two steps.
#[derive(Debug, Drop)]
pub struct LineState {
    hold: Vec<(u32, Mode)>,
    line: Vec<u32>,
    hand: Option<u32>,
    role: Role,
    mark: Vec<u16>,
}

impl Model for LineState {
    ghost use Rattle.shfl_line.specs.Line.{Line};

    ghost Value = { Line };

    ghost use Rattle.shfl_line.specs.Shown.{shown, IsKept};

    ghost view = { shown };

    ghost invariant = { IsKept };
}

impl LineState {
    /// The empty state, with room for all passes.
    pub fn open(alloc: Global, passes: u32) -> Result<LineState, NoMemory>
        ensures { IfOk result (λ s. s ≡ empty passes) }
    {
        let count = passes as usize;
        Ok(LineState {
            hold: Vec::with_capacity(alloc, count)?,
            line: Vec::with_capacity(alloc, count)?,
            hand: None,
            role: Role::Nobody,
            mark: vec![in alloc; 0; count]?,
        })
    }

    pub fn hold(&self) -> &[(u32, Mode)]
        ensures { result.now ≡ self.now.hold }
    {
        &self.hold
    }

    pub fn line(&self) -> &[u32]
        ensures { result.now ≡ self.now.line }
    {
        &self.line
    }

    /// The detached waiter.
    pub fn hand(&self) -> Option<u32>
        ensures { result ≡ self.now.hand }
    {
        self.hand
    }

    pub fn role(&self) -> &Role
        ensures { result.now ≡ self.now.role }
    {
        &self.role
    }

    /// The batch number of each pass.
    pub fn mark(&self) -> &[u16]
        ensures { result.now ≡ self.now.mark }
    {
        &self.mark
    }
}
