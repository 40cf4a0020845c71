//! A gate at which workers queue in their order.
use crate::Mark;
use std::sync::Wait;
use syn_outer::{Gate, Point};

/// Lets worker 0 hold the lock until the others, at most seven, have queued in their order and worker 1 has ended its round.
#[derive(Drop)]
pub struct QueueGate {
    workers: usize,
    held: Mark,
    // how often each has joined the queue or ended a round
    queued: [Mark; 8],
    /// How often somebody gave up.
    pub late: Mark,
}

impl QueueGate {
    /// A gate for so many workers, at which nobody has been yet.
    pub fn new(workers: usize) -> QueueGate {
        QueueGate {
            workers,
            held: Mark::new(),
            queued: [
                Mark::new(),
                Mark::new(),
                Mark::new(),
                Mark::new(),
                Mark::new(),
                Mark::new(),
                Mark::new(),
                Mark::new(),
            ],
            late: Mark::new(),
        }
    }

    // Waits until this worker has queued, or ended a round.
    fn await_worker(&self, worker: usize, times: u64) {
        if let Some(queued) = self.queued.get(worker) {
            queued.wait(times, &self.late);
        }
    }

    // Worker 1 stays at the head of the queue until all have queued, and only then begins its round.
    fn note(&self, worker: usize) {
        let Some(queued) = self.queued.get(worker) else {
            return;
        };
        queued.set();
        if worker == 1 && queued.count() == 1 {
            for other in 2..self.workers {
                self.await_worker(other, 1);
            }
        }
    }
}

impl Gate for QueueGate {
    fn at<Rt: Wait>(&self, _rt: &Rt, worker: u32, point: Point) {
        match (worker as usize, point) {
            (0, Point::Holding) => {
                self.held.set();
                self.await_worker(1, 2);
            }
            (0, _) => {}
            (1, Point::BeforeCall) => self.held.wait(1, &self.late),
            (worker, Point::BeforeCall) => self.await_worker(worker - 1, 1),
            (worker, Point::Queued) => self.note(worker),
            _ => {}
        }
    }
}
