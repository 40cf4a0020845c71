//! The same lock twice: over plain words, and over words that threads share.
ghost use Rattle.std.specs.Prelude.{◌≡◌, ◌<◌, true, length, vec_len};
ghost use Rattle.shfl_core.specs.Waiting.{MayUse};

use crate::driven::Driven;
use shared_tests::{Act, Event};
use shfl_core::{PlainWorld, Waiter};
use shfl_line::{Form, Mode};

#[derive(Drop)]
pub struct Boards<'a, W: Waiter + Drop> {
    plain: PlainWorld<W>,
    shared: Vec<Driven<'a>>,
    // a pass of the second that stays idle
    spare: Driven<'a>,
    form: Form,
    ghost forms: { plain.rules.form ≡ form },
}

impl<'a, W: Waiter + Drop> Boards<'a, W> {
    pub fn new(
        plain: PlainWorld<W>,
        shared: Vec<Driven<'a>>,
        spare: Driven<'a>,
        form: Form,
    ) -> Boards<'a, W>
        requires { plain.rules.form ≡ form }
    {
        Boards {
            plain,
            shared,
            spare,
            form,
        }
    }

    // Whether there is such a pass in both.
    fn has(&self, pass: u32) -> bool
        ensures plain { result ≡ true → pass < length self.now.plain.world.passes }
        ensures shared { result ≡ true → pass < vec_len self.now.shared }
    {
        let place = pass as usize;
        place < self.plain.count() && place < self.shared.len()
    }

    fn acquire(&mut self, pass: u32, mode: Mode) -> bool
        requires plain { pass < length self.old.plain.world.passes }
        requires shared { pass < vec_len self.old.shared }
        requires mode { MayUse self.old.form mode }
    {
        let plain = self.plain.acquire(pass, mode);
        let shared = self.shared[pass as usize].acquire(mode);
        plain == shared
    }

    /// Makes the move on both; whether they answer alike.
    pub fn make(&mut self, event: Event) -> bool {
        let pass = event.pass;
        if !self.has(pass) {
            return false;
        }
        match event.act {
            Act::Write => self.acquire(pass, Mode::Write),
            Act::Read => match self.form {
                Form::Spin | Form::Park => true,
                Form::Rw | Form::RwPark => self.acquire(pass, Mode::Read),
            },
            Act::Free => {
                let plain = self.plain.release(pass);
                let shared = self.shared[pass as usize].release();
                plain == shared
            }
            Act::Step { choice } => {
                let plain = self.plain.step(pass, choice);
                let shared = self.shared[pass as usize].step(choice);
                plain == shared
            }
        }
    }

    /// Whether the lock words agree.
    pub fn words_agree(&mut self) -> bool {
        self.spare.lock_word() == Some(self.plain.word())
    }

    /// Whether the pass stands alike in both and asks alike.
    pub fn agree(&self, pass: u32) -> bool {
        if !self.has(pass) {
            return false;
        }
        let shared = &self.shared[pass as usize];
        self.plain.standing(pass) == shared.standing() && self.plain.ask(pass) == shared.ask()
    }
}
