//! What whoever frees a lock looks at: who sleeps at the head of its queue, and whom it has made the head.
use crate::outside::Outside;
use crate::passing::Passing;
use crossbeam_utils::CachePadded;
use std::sync::atomic::{AtomicU64, Ordering};

// The half of the word that notes the waiter that sleeps at the queue's head: its number plus 1, or 0.
const ASLEEP: u64 = 4294967295;

// The half that notes the waiter that a holder has made the head: its number plus 1, or 0.
const SUCCESSOR: u64 = u64::MAX - ASLEEP;

// The lowest bit of that half.
const SUCCESSOR_BIT: u32 = 32;

// How often a note is tried where others write to the word meanwhile. One that is lost costs time alone.
const TRIES: u32 = 8;

#[derive(Drop)]
struct Front {
    noted: AtomicU64,
    // How many wait in the queue.
    waiting: AtomicU64,
    // Who waits outside it.
    outside: Outside,
}

/// What is known of a queue's front. Where several queues share one, each may overwrite what another has noted.
#[derive(Drop)]
pub struct QueueFront {
    front: CachePadded<Front>,
    passing: CachePadded<Passing>,
}

// The waiter whose number plus 1 this is, if it is not 0.
fn number_of(entry: u64) -> Option<u32> {
    match entry {
        0 => None,
        next => Some(((next - 1) & ASLEEP) as u32),
    }
}

impl QueueFront {
    /// The front of an empty queue.
    pub fn new() -> QueueFront {
        QueueFront {
            front: CachePadded::new(Front {
                noted: AtomicU64::new(0),
                waiting: AtomicU64::new(0),
                outside: Outside::new(),
            }),
            passing: CachePadded::new(Passing::new()),
        }
    }

    #[inline(always)]
    fn noted(&self) -> &AtomicU64 {
        let front: &Front = &self.front;
        &front.noted
    }

    /// Who waits for the lock outside its queue.
    #[inline(always)]
    pub(crate) fn outside(&self) -> &Outside {
        let front: &Front = &self.front;
        &front.outside
    }

    /// How many holds have passed those that sleep there.
    pub(crate) fn passing(&self) -> &Passing {
        &self.passing
    }

    // Puts an entry into a half of the word, where the half has `only`, or whatever it has.
    fn note(&self, half: u64, entry: u64, only: Option<u64>) {
        let noted = self.noted();
        for _ in 0..TRIES {
            let found = noted.load(Ordering::SeqCst);
            if only.is_some_and(|it| found & half != it) {
                return;
            }
            let next = (found & !half) | entry;
            let won = noted.compare_exchange(found, next, Ordering::SeqCst, Ordering::SeqCst);
            if won.is_ok() {
                return;
            }
        }
    }

    /// The waiter of this number is about to sleep at the queue's head.
    pub fn announce(&self, number: u32) {
        self.note(ASLEEP, u64::from(number) + 1 & ASLEEP, None);
    }

    /// The waiter of this number sleeps there no more.
    pub fn rise(&self, number: u32) {
        self.note(ASLEEP, 0, Some(u64::from(number) + 1));
    }

    /// The number of the waiter that sleeps there.
    pub fn asleep(&self) -> Option<u32> {
        number_of(self.noted().load(Ordering::SeqCst) & ASLEEP)
    }

    /// A holder has made the waiter of this number the head.
    pub fn leads_to(&self, number: u32) {
        self.note(SUCCESSOR, u64::from(number) + 1 << SUCCESSOR_BIT, None);
    }

    /// The number of the waiter that a holder has made the head, once.
    pub fn take_successor(&self) -> Option<u32> {
        let found = self.noted().load(Ordering::SeqCst) & SUCCESSOR;
        if found != 0 {
            self.note(SUCCESSOR, 0, Some(found));
        }
        number_of(found >> SUCCESSOR_BIT)
    }

    /// Whether somebody sleeps there, or has been made the head: one of the two words that a holder looks at where nobody waits.
    #[inline(always)]
    pub fn is_noted(&self) -> bool {
        self.noted().load(Ordering::SeqCst) != 0
    }

    /// One more waits in the queue.
    pub fn joins(&self) {
        let front: &Front = &self.front;
        let _ = front.waiting.fetch_add(1, Ordering::SeqCst);
    }

    /// One less waits in the queue.
    pub fn leaves(&self) {
        let front: &Front = &self.front;
        let _ = front.waiting.fetch_sub(1, Ordering::SeqCst);
    }

    /// How many wait in the queue.
    pub fn waiting(&self) -> u64 {
        let front: &Front = &self.front;
        front.waiting.load(Ordering::SeqCst)
    }
}
