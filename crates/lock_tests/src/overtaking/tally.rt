//! Who waits, how many may leave the queue before each, and how many have.
use shfl_line::LineState;
use std::alloc::{AllocError, Global};

// What is counted of one pass.
#[derive(Clone, Copy, Drop)]
struct Wait {
    pass: u32,
    waits: bool,
    // how many may leave before it, and how many have
    most: u64,
    gone: u64,
}

/// Counts departures by what a lock shows after each of its moves.
#[derive(Drop)]
pub struct Tally {
    waits: Vec<Wait>,
    limit: u16,
    reached: u64,
}

impl Tally {
    pub fn new(alloc: Global, passes: u32, limit: u16) -> Result<Tally, AllocError> {
        let mut waits = Vec::new(alloc);
        for pass in 0..passes {
            waits.push(Wait {
                pass,
                waits: false,
                most: 0,
                gone: 0,
            })?;
        }
        Ok(Tally {
            waits,
            limit,
            reached: 0,
        })
    }

    /// How many passes that joined behind others left when the most had left before them that may.
    pub fn reached(&self) -> u64 {
        self.reached
    }

    // Sees who has come and who has gone by one move; whether a pass has left.
    fn see(&mut self, shown: &LineState) -> bool {
        let mut left = false;
        let line = shown.line();
        // the last of the line is the one that has just joined
        let ahead = (line.len() as u64).saturating_sub(1);
        let most = ahead.saturating_mul(u64::from(self.limit));
        for wait in self.waits.iter_mut() {
            let waits = line.contains(&wait.pass) || shown.hand() == Some(wait.pass);
            if waits && !wait.waits {
                wait.most = most;
                wait.gone = 0;
            }
            if wait.waits && !waits {
                left = true;
                if wait.most > 0 && wait.gone == wait.most {
                    self.reached = self.reached.saturating_add(1);
                }
            }
            wait.waits = waits;
        }
        left
    }

    /// Counts one move; whether no pass that waits was preceded by more than may leave before it.
    pub fn count(&mut self, shown: &LineState) -> bool {
        let left = self.see(shown);
        let mut within = true;
        for wait in self.waits.iter_mut() {
            if left && wait.waits {
                wait.gone = wait.gone.saturating_add(1);
            }
            if wait.waits && wait.gone > wait.most {
                within = false;
            }
        }
        within
    }
}
