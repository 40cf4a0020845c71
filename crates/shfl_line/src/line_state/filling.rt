//! How a state is filled from outside, as a lock does that shows itself.
ghost use Rattle.std.specs.Prelude.{◌≡◌, ℕ, ◌<◌, List, [], ◌∷◌, ◌++◌, length, slice_set, IfSome};
ghost use Rattle.shfl_line.specs.Line.{Line, holds, empty};
ghost use Rattle.shfl_line.specs.Passes.{times};
ghost use Rattle.shfl_line.specs.Steps.{IsAway};

use crate::events::{Mode, Role};
use crate::line_state::LineState;

impl LineState {
    /// Makes it the empty state for as many passes.
    pub fn clear(&mut self)
        ensures { self.new ≡ empty (length self.old.mark) }
    {
        self.hold.clear();
        self.line.clear();
        self.hand = None;
        self.role = Role::Nobody;
        self.mark.fill(0);
    }

    /// Puts a holder at the end of the hold.
    pub fn add_hold(&mut self, pass: u32, mode: Mode)
        requires named { pass < length self.old.mark }
        requires above { (q : ℕ) → 0 < holds q self.old.hold → q < pass }
        ensures { self.new ≡ record self.old { hold = self.old.hold ++ (pass, mode) ∷ [] } }
    {
        self.hold.push_reserved((pass, mode));
    }

    /// Puts a waiter with its batch number at the end of the line.
    pub fn add_line(&mut self, pass: u32, mark: u16)
        requires named { pass < length self.old.mark }
        requires away { IsAway self.old pass }
        ensures { self.new ≡ record self.old {
          line = self.old.line ++ pass ∷ [];
          mark = slice_set self.old.mark pass mark;
        } }
    {
        self.line.push_reserved(pass);
        self.mark[pass as usize] = mark;
    }

    /// Sets the detached waiter and the shuffler.
    pub fn set(&mut self, hand: Option<u32>, role: Role)
        requires named { IfSome hand (λ q. q < length self.old.mark) }
        requires apart { IfSome hand (λ q. times q self.old.line ≡ 0) }
        ensures { self.new ≡ record self.old { hand = hand; role = role } }
    {
        self.hand = hand;
        self.role = role;
    }
}
