//! Why a lock isn't given.

/// Why a seat isn't given a lock.
#[derive(Clone, Copy, Debug, PartialEq, Eq, Drop)]
pub enum LockError {
    /// There are fewer locks.
    NoSuchLock,
    /// This seat has it.
    Held,
    /// This seat has as many as it may at the same time.
    Full,
    /// Another seat has it so that this one can't, or is to have it. Only an attempt answers so.
    Busy,
}
