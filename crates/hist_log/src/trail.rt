//! Where an object made a call.

/// A place in an object: a part of it, and a place in that part.
#[derive(Clone, Copy, Debug, PartialEq, Eq)]
pub struct Mark {
    pub part: usize,
    pub at: usize,
}

/// The places where an object made its last call, so that an equal object finds them sooner. Nothing is promised of them.
#[derive(Clone, Copy, Debug, PartialEq, Eq)]
pub struct Trail {
    pub first: Mark,
    pub second: Mark,
}

impl Trail {
    /// The trail of an object that tells none.
    pub fn none() -> Trail {
        let start = Mark { part: 0, at: 0 };
        Trail {
            first: start,
            second: start,
        }
    }
}
