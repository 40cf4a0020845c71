//! A gate that a worker passes at fixed points, so that a test can hold it there.
use std::sync::Wait;

/// Where in a call a worker is.
#[derive(Clone, Copy, Debug, PartialEq, Eq)]
pub enum Point {
    /// Before it asks for the lock.
    BeforeCall,
    /// It waits in the queue.
    Queued,
    /// It looked in vain, and is about to give its processor away: it yields, or sleeps.
    GivesWay,
    /// It holds the lock.
    Holding,
    /// It has freed the lock.
    AfterCall,
}

/// Changes nothing, and may wait for other threads.
pub trait Gate {
    /// Returns once this worker may go on from this point. That it returns is not promised.
    fn at<Rt: Wait>(&self, rt: &Rt, worker: u32, point: Point);
}

/// Lets everyone pass at once.
#[derive(Clone, Copy, Debug, PartialEq, Eq)]
pub struct OpenGate;

impl Gate for OpenGate {
    fn at<Rt: Wait>(&self, _rt: &Rt, _worker: u32, _point: Point) {}
}
