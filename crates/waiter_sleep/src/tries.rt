//! What a waiter remembers of its attempts in vain, before it queues.
use crate::backing_off::spins_after;
use crate::front::QueueFront;
use crate::waiter::Waiter;
use std::sync::Wait;
use std::sync::atomic::{AtomicU64, Ordering};

// After how many attempts in vain a waiter spins, which then sleeps outside the queue: one that has just come, and one that has slept.
pub(crate) const SPINS: u32 = 6;

const SPINS_AGAIN: u32 = 3;

// Who was passed so often for each that waits queues, unless somebody else does.
const PASSED: u64 = 4;

// Where the parts of the word of a waiter's stage stand that aren't the lowest.
const COUNTED_BIT: u32 = 8;

const TRIED_BIT: u32 = 16;

const SPINS_BIT: u32 = 24;

const BYTE: u64 = 255;

/// What comes after an attempt in vain.
#[derive(Clone, Copy, Debug, PartialEq, Eq, Drop)]
pub enum Attempted {
    /// The next attempt.
    Again,
    /// The processor is given away, by `Waiter::give_way`, and then comes the next attempt.
    GivesWay,
    /// The waiter queues.
    Queues,
}

#[derive(Clone, Copy, Drop)]
pub(crate) enum Stage {
    // It hasn't tried in vain since it came.
    New,
    Trying,
    // It is counted as one that sleeps outside.
    LyingDown,
    // It has slept.
    Risen,
    // It has slept, and queues unless its next attempt succeeds.
    RisenToQueue,
}

#[derive(Drop)]
pub(crate) struct Tries {
    stage: Stage,
    // It counts as one that waits awake.
    counted: bool,
    // How many attempts it has made since it came or rose, and after how many it spins.
    tried: u32,
    spins: u32,
    // How many calls there had been, and how many holds had passed sleepers, when it lay down.
    calls: u64,
    seen: u64,
    // How many holds had passed sleepers when it came.
    holds: u64,
}

/// Where a waiter keeps that from one attempt to the next. Who gets the lock at once writes nothing, so that its operation waits for nothing.
#[derive(Drop)]
pub(crate) struct Remembered {
    stage: AtomicU64,
    calls: AtomicU64,
    seen: AtomicU64,
    holds: AtomicU64,
}

fn code_of(stage: Stage) -> u64 {
    match stage {
        Stage::New => 0,
        Stage::Trying => 1,
        Stage::LyingDown => 2,
        Stage::Risen => 3,
        Stage::RisenToQueue => 4,
    }
}

fn stage_of(code: u64) -> Stage {
    match code {
        0 => Stage::New,
        1 => Stage::Trying,
        2 => Stage::LyingDown,
        3 => Stage::Risen,
        _ => Stage::RisenToQueue,
    }
}

impl Remembered {
    pub(crate) fn new() -> Remembered {
        Remembered {
            stage: AtomicU64::new(0),
            calls: AtomicU64::new(0),
            seen: AtomicU64::new(0),
            holds: AtomicU64::new(0),
        }
    }

    /// What was kept last; of a waiter that has just come, nothing.
    pub(crate) fn load(&self) -> Tries {
        let word = self.stage.load(Ordering::SeqCst);
        Tries {
            stage: stage_of(word & BYTE),
            counted: word >> COUNTED_BIT & BYTE != 0,
            tried: (word >> TRIED_BIT & BYTE) as u32,
            spins: (word >> SPINS_BIT & BYTE) as u32,
            calls: self.calls.load(Ordering::SeqCst),
            seen: self.seen.load(Ordering::SeqCst),
            holds: self.holds.load(Ordering::SeqCst),
        }
    }

    pub(crate) fn keep(&self, tries: &Tries) {
        let counted = u64::from(tries.counted) << COUNTED_BIT;
        let tried = u64::from(tries.tried.min(255)) << TRIED_BIT;
        let spins = u64::from(tries.spins.min(255)) << SPINS_BIT;
        let word = code_of(tries.stage) | counted | tried | spins;
        self.stage.store(word, Ordering::SeqCst);
        self.calls.store(tries.calls, Ordering::SeqCst);
        self.seen.store(tries.seen, Ordering::SeqCst);
        self.holds.store(tries.holds, Ordering::SeqCst);
    }

    /// The waiter has the lock.
    pub(crate) fn forget(&self) {
        self.stage.store(0, Ordering::SeqCst);
    }
}

impl Tries {
    // Its first attempt was in vain. Who has called another one to queue doesn't spin before that one has come.
    fn comes(&mut self, waiter: &Waiter<'_>, front: &QueueFront) {
        self.stage = Stage::Trying;
        self.tried = 0;
        self.spins = if waiter.steps_aside() { 0 } else { SPINS };
        self.holds = front.passing().holds();
        let others_sleep = front.outside().sleeps_for(waiter.lock);
        self.counted = others_sleep && front.outside().enters(waiter.lock);
    }

    // Whether it was passed so often that it queues. It doesn't where another does: the queue would hand the lock on to a sleeper.
    fn is_passed(&self, front: &QueueFront) -> bool {
        let passed = front.passing().holds().wrapping_sub(self.holds);
        let others = front.outside().waiting().max(1);
        passed >= others.saturating_mul(PASSED) && front.waiting() == 0
    }

    // It has spun long enough. Whoever frees the lock from now on sees it asleep, so it tries once more before it sleeps.
    fn lies_down_or_queues(&mut self, waiter: &Waiter<'_>, front: &QueueFront) -> Attempted {
        self.calls = front.outside().calls();
        self.seen = front.passing().holds();
        if self.is_passed(front) || !front.outside().lies_down(waiter.lock, self.counted) {
            return Attempted::Queues;
        }
        self.counted = false;
        self.stage = Stage::LyingDown;
        Attempted::Again
    }

    fn spins_or_lies_down(&mut self, waiter: &Waiter<'_>, front: &QueueFront) -> Attempted {
        if !spins_after(self.tried, self.spins) {
            return self.lies_down_or_queues(waiter, front);
        }
        self.tried = self.tried.saturating_add(1);
        Attempted::Again
    }

    /// What comes after an attempt in vain. It has spun already, where that is all.
    pub(crate) fn after_attempt(&mut self, waiter: &Waiter<'_>, front: &QueueFront) -> Attempted {
        match self.stage {
            Stage::New => self.comes(waiter, front),
            Stage::Trying => {}
            Stage::LyingDown => return Attempted::GivesWay,
            Stage::Risen => {
                self.stage = Stage::Trying;
                self.tried = 0;
                self.spins = SPINS_AGAIN;
            }
            Stage::RisenToQueue => return Attempted::Queues,
        }
        self.spins_or_lies_down(waiter, front)
    }

    /// Whether it is counted as one that sleeps outside.
    pub(crate) fn is_lying_down(&self) -> bool {
        matches!(self.stage, Stage::LyingDown)
    }

    /// It sleeps outside no more.
    pub(crate) fn rises<R: Wait>(&mut self, rt: &R, front: &QueueFront) {
        front.outside().rises(rt);
        self.counted = true;
        self.stage = Stage::Trying;
    }

    /// Sleeps outside the queue until a holder calls it, or for a while. It queues then where it was called to, and where it slept in vain, because one holder
    /// has had the lock all the time.
    pub(crate) fn sleeps<R: Wait>(&mut self, rt: &R, front: &QueueFront) {
        front.outside().sleep(rt, self.calls);
        self.rises(rt, front);
        let called = front.passing().is_to_queue();
        let in_vain = front.outside().calls() == self.calls && front.passing().holds() == self.seen;
        self.stage = if called || in_vain {
            Stage::RisenToQueue
        } else {
            Stage::Risen
        };
    }

    /// It joins the queue. Where somebody sleeps outside it counts as one that waits awake until it has the lock, so that its holder calls nobody meanwhile.
    pub(crate) fn queues<R: Wait>(&mut self, rt: &R, waiter: &Waiter<'_>, front: &QueueFront) {
        if self.is_lying_down() {
            self.rises(rt, front);
        }
        if !self.counted && front.outside().sleeps() {
            self.counted = front.outside().enters(waiter.lock);
        }
    }

    /// It has the lock, and is counted no more.
    pub(crate) fn leaves<R: Wait>(&mut self, rt: &R, front: &QueueFront) {
        if self.is_lying_down() {
            self.rises(rt, front);
        }
        if self.counted {
            front.outside().leaves();
        }
        self.counted = false;
    }
}
