//! How a pass asks for the lock, the forms of lock, and the steps of a line state.

/// How a pass asks for the lock: alone, or beside other readers.
#[derive(Clone, Copy, Debug, PartialEq, Eq, Drop)]
pub enum Mode {
    Write,
    Read,
}

/// The four forms of lock: writers alone, or readers and writers; each spinning, or with waiters that sleep.
#[derive(Clone, Copy, Debug, PartialEq, Eq, Drop)]
pub enum Form {
    Spin,
    Rw,
    Park,
    RwPark,
}

/// Who shuffles: nobody, a pass that has the shuffler flag, or a pass that is in a round.
#[derive(Clone, Copy, Debug, PartialEq, Eq, Drop)]
pub enum Role {
    Nobody,
    Rest(u32),
    Walk(u32),
}

/// A step of a line state. Each names the pass that makes it.
#[derive(Clone, Copy, Debug, PartialEq, Eq, Drop)]
pub enum LineEvent {
    /// Takes the lock past the line.
    Steal { pass: u32, mode: Mode },
    /// Becomes the line's end.
    Join { pass: u32 },
    /// Takes the lock as the line's first.
    Grab { pass: u32, mode: Mode },
    /// Goes from the front of the line as a holder.
    Leave { pass: u32 },
    /// Gives the lock back.
    Release { pass: u32 },
    /// Begins a round of shuffling.
    Begin { pass: u32 },
    /// Ends the shuffling of a group that has reached the limit.
    Rest { pass: u32 },
    /// Takes the waiter `who` out of the line.
    Pick { pass: u32, who: u32 },
    /// Puts the waiter that was taken out directly behind the group.
    Place { pass: u32 },
    /// Lets the waiter directly behind the group into it.
    Keep { pass: u32 },
    /// Ends the round, and hands the shuffler flag to the group's last.
    Give { pass: u32 },
    Nothing,
}
