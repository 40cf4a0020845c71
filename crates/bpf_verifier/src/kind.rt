//! What a register holds, as far as the verifier tells it apart.

/// How many registers there are.
pub const REGISTERS: usize = 10;

/// How many bytes the context has.
pub const CONTEXT_BYTES: usize = 40;

/// What a register holds at a slot.
#[derive(Clone, Copy, Debug, PartialEq, Eq)]
pub enum Kind {
    /// No value on some path, or a number on one path and the pointer on another.
    Absent,
    /// A number on all paths.
    Number,
    /// The pointer to the context on all paths.
    Context,
}

/// At slot 0 register 1 points to the context, and no other register has a value.
pub const START: [Kind; REGISTERS] = [
    Kind::Absent,
    Kind::Context,
    Kind::Absent,
    Kind::Absent,
    Kind::Absent,
    Kind::Absent,
    Kind::Absent,
    Kind::Absent,
    Kind::Absent,
    Kind::Absent,
];
