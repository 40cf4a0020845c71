//! What a waiter in the queue does between two looks at a word that doesn't change, and between two rounds that move nobody.
ghost use Rattle.std.specs.Prelude.{◌≡◌, ◌≢◌, false};
ghost use Rattle.waiter_sleep.specs.Waits.{gives_way, is_sleep};
ghost use Rattle.waiter_sleep.specs.declared.pauses.Pause.TheVariants.{Look};
ghost use Rattle.waiter_sleep.specs.declared.pauses.Stand.TheVariants.{Leaving, Queued};

use crate::sleeper::Sleeper;
use crate::waiter::Waiter;
use std::sync::Wait;
use std::{hint, thread};

// How often a waiter looks again at once, in the queue, where more than so many wait there, and at its head; then it sleeps.
const SPINS: u32 = 100;

const SPINS_FAR: u32 = 15;

const NEAR: u64 = 3;

const SPINS_AT_HEAD: u32 = 1000;

// After so many rounds that moved nobody a shuffler sleeps until the next; before, it spins so long, and each time twice as long, up to
// so many times.
const BRIEF_ROUNDS: u32 = 16;

const BRIEF_PAUSE: u32 = 16;

const BRIEF_DOUBLINGS: u32 = 2;

// The first sleep, in microseconds; each next one is twice as long, up to a longest one, which is shorter at the queue's head.
const FIRST_SLEEP: u32 = 50;

const DOUBLINGS: u32 = 8;

const LONGEST_AT_HEAD: u32 = 1000;

/// Where a waiter stands, and so which word it looks at.
#[derive(Clone, Copy, Debug, PartialEq, Eq, Drop)]
pub enum Stand {
    /// In the queue: its own word, which others write.
    Queued,
    /// At the queue's head: the lock word.
    Head,
    /// It has the lock word, and waits until its successor has named itself.
    Leaving,
}

/// What a waiter does before it looks again.
#[derive(Clone, Copy, Debug, PartialEq, Eq, Drop)]
pub enum Pause {
    /// Nothing more.
    Look,
    /// It gives its processor to others.
    Yield,
    /// It sleeps for so many microseconds at most.
    Sleep { micros: u32 },
}

impl Pause {
    /// Whether the waiter gives its processor away.
    pub fn gives_way(self) -> bool
        ensures { result ≡ gives_way self }
    {
        !matches!(self, Pause::Look)
    }
}

/// What a waiter remembers of its pauses.
#[derive(Drop)]
pub struct Pauses {
    // How often it looked in vain since it last went on.
    looks: u32,
    // How many rounds in a row moved nobody.
    rounds: u32,
    // How often it slept since it last moved somebody or became the head.
    sleeps: u32,
    // It was woken since it joined, so its turn is near.
    woken: bool,
    // Others know that it may sleep.
    announced: bool,
    // Whoever frees the lock knows it too.
    at_head: bool,
}

impl Pauses {
    /// The pauses of a waiter that joins the queue.
    pub fn begin(waiter: &Waiter<'_>) -> Pauses {
        waiter.joins();
        Pauses {
            looks: 0,
            rounds: 0,
            sleeps: 0,
            woken: false,
            announced: false,
            at_head: false,
        }
    }

    // The next sleep, longer each time.
    fn next_sleep(&mut self, stand: Stand) -> Pause {
        let longer = FIRST_SLEEP << self.sleeps.min(DOUBLINGS);
        self.sleeps = self.sleeps.saturating_add(1);
        let micros = match stand {
            Stand::Head => longer.min(LONGEST_AT_HEAD),
            Stand::Queued | Stand::Leaving => longer,
        };
        Pause::Sleep { micros }
    }

    // A sleep, where it was announced; else that comes first, and the waiter looks once more before.
    fn sleep_next(&mut self, waiter: &Waiter<'_>, stand: Stand) -> Pause {
        let Some(sleeper) = waiter.place() else {
            return Pause::Yield;
        };
        if matches!(stand, Stand::Head) && !self.at_head {
            waiter.announce_at_head();
            self.at_head = true;
            self.sleeps = 0;
            self.announced = sleeper.announce();
            return Pause::Look;
        }
        if self.announced {
            return self.next_sleep(stand);
        }
        self.announced = sleeper.announce();
        Pause::Look
    }

    // How often it looks before it sleeps.
    fn looks_before_sleep(&self, waiter: &Waiter<'_>, stand: Stand) -> u32 {
        match stand {
            Stand::Queued => {
                if self.woken || waiter.waiting() <= NEAR {
                    SPINS
                } else {
                    SPINS_FAR
                }
            }
            Stand::Head | Stand::Leaving => SPINS_AT_HEAD,
        }
    }

    /// What comes after a look in vain. Who has the lock word and waits for its successor gives its processor away last.
    pub fn after_look(&mut self, waiter: &Waiter<'_>, stand: Stand) -> Pause
        ensures leaving { stand ≡ Leaving → is_sleep result ≡ false }
    {
        let looks = self.looks;
        self.looks = looks.saturating_add(1);
        if looks < self.looks_before_sleep(waiter, stand) {
            hint::spin_loop();
            return Pause::Look;
        }
        match stand {
            Stand::Leaving => Pause::Yield,
            Stand::Queued | Stand::Head => self.sleep_next(waiter, stand),
        }
    }

    /// What comes after a round that moved nobody, longer each time. The head goes on: it looks for the lock.
    pub fn after_round(&mut self, waiter: &Waiter<'_>, stand: Stand) -> Pause
        ensures elsewhere { stand ≢ Queued → result ≡ Look }
    {
        if !matches!(stand, Stand::Queued) {
            return Pause::Look;
        }
        let rounds = self.rounds;
        self.rounds = rounds.saturating_add(1);
        if rounds >= BRIEF_ROUNDS {
            return self.sleep_next(waiter, stand);
        }
        for _ in 0..BRIEF_PAUSE << rounds.min(BRIEF_DOUBLINGS) {
            hint::spin_loop();
        }
        Pause::Look
    }

    /// The waiter went on.
    pub fn advance(&mut self) {
        self.looks = 0;
    }

    /// It moved somebody.
    pub fn moved(&mut self) {
        self.rounds = 0;
        self.sleeps = 0;
    }

    // Sleeps, unless a wake came since it was announced. Who was woken stays awake for a while.
    fn sleep<R: Wait>(&mut self, rt: &R, sleeper: &Sleeper, micros: u32) {
        if sleeper.sleep_at_most(rt, micros) {
            self.looks = 0;
            self.woken = true;
        }
        self.announced = sleeper.announce();
    }

    /// Gives the processor away, where the pause says so.
    pub fn take<R: Wait>(&mut self, rt: &R, waiter: &Waiter<'_>, pause: Pause) {
        match pause {
            Pause::Look => {}
            Pause::Yield => thread::yield_now(),
            Pause::Sleep { micros } => {
                if let Some(sleeper) = waiter.place() {
                    self.sleep(rt, sleeper, micros);
                }
            }
        }
    }

    /// The waiter has the lock, and sleeps no more.
    pub fn end(&self, waiter: &Waiter<'_>) {
        waiter.leaves();
        if self.at_head {
            waiter.rise_at_head();
        }
        if self.announced {
            if let Some(sleeper) = waiter.place() {
                sleeper.rise();
            }
        }
    }
}
