//! The same lock three times: over plain words without and with its laws, and over shared words.
ghost use Rattle.std.specs.Prelude.{◌≡◌, ◌<◌, true, length};
ghost use Rattle.shfl_core.specs.Waiting.{MayUse};

use super::ATTRS;
use shared_tests::{Act, Event};
use shfl_core::{Board, PlainWorld, Waiter};
use shfl_line::{Form, LineState, Mode, NoMemory};
use shfl_solo::Solo;
use shfl_world::World;
use std::alloc::Global;

#[derive(Drop)]
pub struct Boards<W: Waiter + Drop> {
    plain: PlainWorld<W>,
    world: World<W>,
    solo: Solo,
    form: Form,
    // what the second and the third lock show
    shown: LineState,
    seen: LineState,
    ghost forms: { (plain.rules.form ≡ form) × (world.rules.form ≡ form)
        × (solo.rules.form ≡ form) },
}

impl<W: Waiter + Drop> Boards<W> {
    pub fn new(
        alloc: Global,
        plain: PlainWorld<W>,
        world: World<W>,
        solo: Solo,
        form: Form,
    ) -> Result<Boards<W>, NoMemory>
        requires plain { plain.rules.form ≡ form }
        requires world { world.rules.form ≡ form }
        requires solo { solo.rules.form ≡ form }
    {
        let shown = LineState::open(alloc, world.count() as u32)?;
        let seen = LineState::open(alloc, solo.count() as u32)?;
        Ok(Boards {
            plain,
            world,
            solo,
            form,
            shown,
            seen,
        })
    }

    // Whether there is such a pass in each.
    fn has(&self, pass: u32) -> bool
        ensures plain { result ≡ true → pass < length self.now.plain.world.passes }
        ensures world { result ≡ true → pass < length self.now.world.world.passes }
        ensures solo { result ≡ true → pass < length self.now.solo.world.passes }
    {
        let place = pass as usize;
        place < self.plain.count() && place < self.world.count() && place < self.solo.count()
    }

    fn acquire(&mut self, pass: u32, mode: Mode) -> bool
        requires plain { pass < length self.old.plain.world.passes }
        requires world { pass < length self.old.world.world.passes }
        requires solo { pass < length self.old.solo.world.passes }
        requires mode { MayUse self.old.form mode }
    {
        let plain = self.plain.acquire(pass, mode);
        let world = self.world.acquire(pass, mode);
        let solo = self.solo.acquire(pass, mode);
        plain == world && world == solo
    }

    /// Makes the move on each; whether they answer alike.
    pub fn make(&mut self, event: Event) -> bool {
        let pass = event.pass;
        if !self.has(pass) {
            return false;
        }
        match event.act {
            Act::Write => self.acquire(pass, Mode::Write),
            Act::Read => match self.form {
                Form::Spin | Form::Park => true,
                Form::Rw | Form::RwPark => self.acquire(pass, Mode::Read),
            },
            Act::Free => {
                let plain = self.plain.release(pass);
                let world = self.world.release(pass);
                let solo = self.solo.release(pass);
                plain == world && world == solo
            }
            Act::Step { choice } => {
                let plain = self.plain.step(pass, choice);
                let world = self.world.step(pass, choice);
                let solo = self.solo.step(pass, choice);
                plain == world && world == solo
            }
        }
    }

    // Whether the pass stands alike in each, and asks and sleeps alike.
    fn stands_alike(&self, pass: u32) -> bool {
        self.has(pass)
            && self.plain.standing(pass) == self.solo.standing(pass)
            && self.world.ask(pass) == self.solo.ask(pass)
            && self.world.asleep(pass) == self.solo.asleep(pass)
    }

    fn shows_alike(&mut self) -> bool {
        if self.shown.mark().len() != self.world.count()
            || self.seen.mark().len() != self.solo.count()
        {
            return false;
        }
        self.world.show(&mut self.shown);
        self.solo.show(&mut self.seen);
        self.shown.hold() == self.seen.hold()
            && self.shown.line() == self.seen.line()
            && self.shown.hand() == self.seen.hand()
            && *self.shown.role() == *self.seen.role()
            && self.shown.mark() == self.seen.mark()
    }

    /// Whether the lock words, the passes and the line states agree.
    pub fn agree(&mut self) -> bool {
        let word = self.solo.word();
        if self.plain.word() != word || self.world.word() != word {
            return false;
        }
        for pass in 0..ATTRS.len() as u32 {
            if !self.stands_alike(pass) {
                return false;
            }
        }
        self.shows_alike()
    }
}
