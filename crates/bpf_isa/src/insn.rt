//! The instructions, one for each slot of eight bytes.

/// Which instructions there are: profile one has no sign extension and no byte swap.
#[derive(Clone, Copy, Debug, PartialEq, Eq)]
pub enum Profile {
    One,
    Two,
}

/// Whether an operation is on the low 32 bits or on all 64.
#[derive(Clone, Copy, Debug, PartialEq, Eq)]
pub enum Width {
    W32,
    W64,
}

/// How many bytes a load reads: 1, 2, 4 or 8.
#[derive(Clone, Copy, Debug, PartialEq, Eq)]
pub enum Size {
    B,
    H,
    W,
    DW,
}

/// A second operand: a register, or a number in the instruction.
#[derive(Clone, Copy, Debug, PartialEq, Eq)]
pub enum Operand {
    Reg(u8),
    Imm(i32),
}

/// The arithmetic operations of two operands (RFC 9669, section 4.1).
#[derive(Clone, Copy, Debug, PartialEq, Eq)]
pub enum AluOp {
    Add,
    Sub,
    Mul,
    Div,
    Or,
    And,
    Lsh,
    Rsh,
    Mod,
    Xor,
    Mov,
    Arsh,
}

/// The conditions of jumps (RFC 9669, section 4.3). Those that begin with S compare signed numbers.
#[derive(Clone, Copy, Debug, PartialEq, Eq)]
pub enum Cond {
    Eq,
    Gt,
    Ge,
    Set,
    Ne,
    Sgt,
    Sge,
    Lt,
    Le,
    Slt,
    Sle,
}

/// What a byte swap does (RFC 9669, section 4.2): to little endian, to big endian, or the bytes reversed.
#[derive(Clone, Copy, Debug, PartialEq, Eq)]
pub enum Order {
    Little,
    Big,
    Swap,
}

/// An instruction. A wide load takes two slots: itself and a `Half` behind it.
///
/// Registers are 0 to 9. The offset of a jump counts slots from the slot after it, that of a load counts bytes.
#[derive(Clone, Copy, Debug, PartialEq, Eq)]
pub enum Insn {
    Alu {
        width: Width,
        op: AluOp,
        dst: u8,
        src: Operand,
    },
    Neg {
        width: Width,
        dst: u8,
    },
    Load {
        size: Size,
        dst: u8,
        src: u8,
        off: i16,
    },
    Wide {
        dst: u8,
        low: i32,
        high: i32,
    },
    Half,
    Goto {
        off: i16,
    },
    GotoLong {
        off: i32,
    },
    Jump {
        width: Width,
        cond: Cond,
        dst: u8,
        src: Operand,
        off: i16,
    },
    Exit,
    /// A load of 1, 2 or 4 bytes that extends the sign.
    LoadSigned {
        size: Size,
        dst: u8,
        src: u8,
        off: i16,
    },
    /// A move that extends the sign of the low 8, 16 or 32 bits, the last only at width 64.
    MovSigned {
        width: Width,
        bits: u8,
        dst: u8,
        src: u8,
    },
    /// A byte swap of the low 16, 32 or 64 bits.
    Swap {
        order: Order,
        bits: u8,
        dst: u8,
    },
}
