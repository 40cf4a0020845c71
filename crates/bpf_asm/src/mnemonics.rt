//! The words that begin lines.
ghost use Rattle.std.specs.Prelude.{◌≡◌, codes};
ghost use Rattle.bpf_asm.specs.Disassembly.{operation_name, condition_name, width_name, load_name, signed_load_name, swap_name};

use bpf_isa::{AluOp, Cond, Order, Size, Width};

/// The word of an operation.
pub fn operation(op: AluOp) -> &'static [u8]
    ensures { result.now ≡ operation_name op }
{
    match op {
        AluOp::Add => b"add",
        AluOp::Sub => b"sub",
        AluOp::Mul => b"mul",
        AluOp::Div => b"div",
        AluOp::Or => b"or",
        AluOp::And => b"and",
        AluOp::Lsh => b"lsh",
        AluOp::Rsh => b"rsh",
        AluOp::Mod => b"mod",
        AluOp::Xor => b"xor",
        AluOp::Mov => b"mov",
        AluOp::Arsh => b"arsh",
    }
}

/// The word of a condition.
pub fn condition(cond: Cond) -> &'static [u8]
    ensures { result.now ≡ condition_name cond }
{
    match cond {
        Cond::Eq => b"jeq",
        Cond::Gt => b"jgt",
        Cond::Ge => b"jge",
        Cond::Set => b"jset",
        Cond::Ne => b"jne",
        Cond::Sgt => b"jsgt",
        Cond::Sge => b"jsge",
        Cond::Lt => b"jlt",
        Cond::Le => b"jle",
        Cond::Slt => b"jslt",
        Cond::Sle => b"jsle",
    }
}

/// The digits of a width.
pub fn width_digits(width: Width) -> &'static [u8]
    ensures { result.now ≡ width_name width }
{
    match width {
        Width::W32 => b"32",
        Width::W64 => b"64",
    }
}

/// The word of a load.
pub fn load(size: Size) -> &'static [u8]
    ensures { result.now ≡ load_name size }
{
    match size {
        Size::B => b"ldb",
        Size::H => b"ldh",
        Size::W => b"ldw",
        Size::DW => b"lddw",
    }
}

/// The word of a load that extends the sign.
pub fn signed_load(size: Size) -> &'static [u8]
    ensures { result.now ≡ signed_load_name size }
{
    match size {
        Size::B => b"ldsb",
        Size::H => b"ldsh",
        Size::W => b"ldsw",
        Size::DW => b"ldsdw",
    }
}

/// The word of a byte swap.
pub fn swap(order: Order) -> &'static [u8]
    ensures { result.now ≡ swap_name order }
{
    match order {
        Order::Little => b"le",
        Order::Big => b"be",
        Order::Swap => b"swap",
    }
}
