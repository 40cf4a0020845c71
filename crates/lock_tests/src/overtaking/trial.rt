//! A lock whose departures are counted.
ghost use Rattle.std.specs.Prelude.{◌≡◌};

use super::tally::Tally;
use shared_tests::{Act, Event};
use shfl_core::{Ask, Board, Waiter};
use shfl_line::{Attr, Form, LineState, Mode, NoMemory};
use shfl_world::World;
use std::alloc::Global;

/// Who answers the questions.
#[derive(Clone, Copy, Drop)]
pub enum Policy {
    /// Whatever was drawn.
    Drawn,
    /// Whoever waits is moved up, but for one class.
    Against { class: u16 },
    /// Whoever waits is moved up, where it is of the socket of the asking pass.
    BySocket,
}

#[derive(Drop)]
pub struct Trial<W: Waiter + Drop> {
    lock: World<W>,
    form: Form,
    shown: LineState,
    tally: Tally,
    ghost form_is: { lock.rules.form ≡ form },
}

impl<W: Waiter + Drop> Trial<W> {
    pub fn new(alloc: Global, lock: World<W>, form: Form, limit: u16) -> Result<Trial<W>, NoMemory>
        requires { lock.rules.form ≡ form }
    {
        let passes = lock.count() as u32;
        let shown = LineState::open(alloc, passes)?;
        let tally = Tally::new(alloc, passes, limit)?;
        Ok(Trial {
            lock,
            form,
            shown,
            tally,
        })
    }

    /// How many passes left after the most that may leave before them.
    pub fn reached(&self) -> u64 {
        self.tally.reached()
    }

    fn answer(&self, pass: u32, attrs: &[Attr], policy: Policy, drawn: bool) -> bool {
        if pass as usize >= self.lock.count() {
            return false;
        }
        match (self.lock.ask(pass), policy) {
            (Ask::Nothing, _) => false,
            (_, Policy::Drawn) => drawn,
            (Ask::Should { waiter, batch: _ }, Policy::Against { class }) => waiter.class != class,
            (Ask::Should { waiter, batch: _ }, Policy::BySocket) => match attrs.get(pass as usize) {
                Some(own) => own.socket == waiter.socket,
                None => false,
            },
            _ => false,
        }
    }

    // Makes the move, where the pass admits it; whether there is such a pass.
    fn make(&mut self, event: Event, attrs: &[Attr], policy: Policy) -> bool {
        let pass = event.pass;
        if pass as usize >= self.lock.count() {
            return false;
        }
        match event.act {
            Act::Write => {
                self.lock.acquire(pass, Mode::Write);
            }
            Act::Read => match self.form {
                Form::Spin | Form::Park => {}
                Form::Rw | Form::RwPark => {
                    self.lock.acquire(pass, Mode::Read);
                }
            },
            Act::Free => {
                self.lock.release(pass);
            }
            Act::Step { choice } => {
                let answer = self.answer(pass, attrs, policy, choice);
                self.lock.step(pass, answer);
            }
        }
        true
    }

    /// Makes the move and counts; whether nobody was preceded by more than may leave before it.
    pub fn keeps_within(&mut self, event: Event, attrs: &[Attr], policy: Policy) -> bool {
        if !self.make(event, attrs, policy) || self.shown.mark().len() != self.lock.count() {
            return false;
        }
        self.lock.show(&mut self.shown);
        self.tally.count(&self.shown)
    }
}
