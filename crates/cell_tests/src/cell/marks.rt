//! A gate that counts where workers were, and holds them until others were somewhere.
use shared_tests::Mark;
use std::sync::Wait;
use syn_outer::{Gate, Point};

/// Worker 0 holds the lock until worker 1 was queued, or tried, so often. Worker 1 begins once worker 0
/// holds it.
#[derive(Drop)]
pub struct TwoMarks {
    pub held: Mark,
    pub waited: Mark,
    pub freed: Mark,
    pub late: Mark,
    pub times: u64,
}

impl TwoMarks {
    pub fn new(times: u64) -> TwoMarks {
        TwoMarks {
            held: Mark::new(),
            waited: Mark::new(),
            freed: Mark::new(),
            late: Mark::new(),
            times,
        }
    }
}

impl Gate for TwoMarks {
    fn at<Rt: Wait>(&self, _rt: &Rt, worker: u32, point: Point) {
        match (worker, point) {
            (0, Point::Holding) => {
                self.held.set();
                self.waited.wait(self.times, &self.late);
            }
            (0, Point::AfterCall) => self.freed.set(),
            (1, Point::BeforeCall) => self.held.wait(1, &self.late),
            (1, Point::Queued) => self.waited.set(),
            _ => {}
        }
    }
}
