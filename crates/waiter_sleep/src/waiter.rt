//! A waiter, as its pauses know it.
use crate::front::QueueFront;
use crate::sleeper::Sleeper;
use crate::sleepers::Sleepers;

/// Who waits, where it sleeps, and at the front of which queue it is noted, if at any.
#[derive(Drop)]
pub struct Waiter<'a> {
    /// Its number among the sleepers.
    pub number: u32,
    /// The number of the lock among those that share fronts.
    pub lock: u32,
    pub sleepers: &'a Sleepers,
    pub front: Option<&'a QueueFront>,
}

impl Waiter<'_> {
    // Where it sleeps.
    pub(crate) fn place(&self) -> Option<&Sleeper> {
        self.sleepers.place(self.number)
    }

    // Whether it has called another one to queue since it waited last.
    pub(crate) fn steps_aside(&self) -> bool {
        match self.place() {
            Some(sleeper) => sleeper.takes_aside(),
            None => false,
        }
    }

    // It is about to sleep at the queue's head.
    pub(crate) fn announce_at_head(&self) {
        if let Some(front) = self.front {
            front.announce(self.number);
        }
    }

    // It sleeps there no more.
    pub(crate) fn rise_at_head(&self) {
        if let Some(front) = self.front {
            front.rise(self.number);
        }
    }

    // It joins the queue.
    pub(crate) fn joins(&self) {
        if let Some(front) = self.front {
            front.joins();
        }
    }

    // It leaves the queue.
    pub(crate) fn leaves(&self) {
        if let Some(front) = self.front {
            front.leaves();
        }
    }

    // How many wait in the queue.
    pub(crate) fn waiting(&self) -> u64 {
        match self.front {
            Some(front) => front.waiting(),
            None => 0,
        }
    }
}
