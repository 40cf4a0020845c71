//! Why a program is refused.

use std::error::Error;
use std::fmt;

/// Memory was wanted and not found.
#[derive(Clone, Copy, Debug, PartialEq, Eq)]
pub struct NoMemory;

/// The first fault of a program: in the first faulty slot the first kind of this list, and of it the lowest register.
#[derive(Clone, Copy, Debug, PartialEq, Eq)]
pub enum Refusal {
    /// A jump whose target isn't above its own slot.
    Back { slot: u32 },
    /// An edge to a slot at or past the end.
    OutOfProgram { slot: u32 },
    /// A register is read that has no value, or not the same kind of value on all paths.
    NoValue { slot: u32, reg: u8 },
    /// The context pointer is read otherwise than as the base of a load or the source of a 64-bit move.
    PointerUse { slot: u32, reg: u8 },
    /// A load whose base is a number, or that isn't aligned within the context.
    BadLoad { slot: u32 },
    /// Memory was wanted and not found, which says nothing of the program.
    NoMemory,
}

impl fmt::Display for Refusal {
    fn fmt<W: fmt::Write>(&self, f: &mut fmt::Formatter<W>) -> fmt::Result {
        match *self {
            Refusal::Back { slot } => write!(f, "the jump in slot {slot} doesn't lead forward"),
            Refusal::OutOfProgram { slot } => write!(f, "slot {slot} leads out of the program"),
            Refusal::NoValue { slot, reg } => write!(
                f,
                "slot {slot} reads register {reg}, which has no value"
            ),
            Refusal::PointerUse { slot, reg } => write!(
                f,
                "slot {slot} reads the pointer in register {reg} as a number"
            ),
            Refusal::BadLoad { slot } => write!(
                f,
                "the load in slot {slot} doesn't read the context"
            ),
            Refusal::NoMemory => f.write_str("out of memory"),
        }
    }
}

impl Error for Refusal {}

impl fmt::Display for NoMemory {
    fn fmt<W: fmt::Write>(&self, f: &mut fmt::Formatter<W>) -> fmt::Result {
        f.write_str("out of memory")
    }
}

impl Error for NoMemory {}
