//! What an instruction makes of the kinds of the registers.

ghost use Rattle.std.specs.Prelude.{◌≡◌, ◌<◌, List, length, IsTrue};
ghost use Rattle.bpf_isa.specs.WellFormed.{HasFields};
ghost use Rattle.bpf_verifier.specs.Kinds.{is_move, moves_whole, takes_pointer, copied, result_kind, kinds_after, is_in_context, base_of, loads_outside};

use crate::kind::{CONTEXT_BYTES, Kind, REGISTERS};
use bpf_isa::{AluOp, Insn, Operand, Size, Width};

fn is_mov(op: AluOp) -> bool
    ensures { result ≡ is_move op }
{
    matches!(op, AluOp::Mov)
}

fn moves_all_bits(width: Width, op: AluOp) -> bool
    ensures { result ≡ moves_whole width op }
{
    match width {
        Width::W32 => false,
        Width::W64 => is_mov(op),
    }
}

/// Whether the one register that the instruction reads may hold the pointer.
pub fn may_take_pointer(insn: Insn) -> bool
    ensures { result ≡ takes_pointer insn }
{
    match insn {
        Insn::Alu {
            width,
            op,
            src: Operand::Reg(_),
            ..
        } => moves_all_bits(width, op),
        Insn::Load { .. } | Insn::LoadSigned { .. } => true,
        _ => false,
    }
}

fn copy_of(kind: Kind) -> Kind
    ensures { result ≡ copied kind }
{
    match kind {
        Kind::Context => Kind::Context,
        Kind::Number | Kind::Absent => Kind::Number,
    }
}

fn kind_of_result(insn: Insn, kinds: &[Kind; REGISTERS]) -> Kind
    requires { HasFields insn }
    ensures { result ≡ result_kind insn kinds.now }
{
    match insn {
        Insn::Alu {
            width,
            op,
            src: Operand::Reg(src),
            ..
        } => {
            if moves_all_bits(width, op) {
                copy_of(kinds[src as usize])
            } else {
                Kind::Number
            }
        }
        _ => Kind::Number,
    }
}

/// Makes of the kinds before an instruction those behind it.
pub fn run_kinds(insn: Insn, kinds: &mut [Kind; REGISTERS])
    requires { HasFields insn }
    ensures { kinds.new ≡ kinds_after insn kinds.old }
{
    let kind = kind_of_result(insn, kinds);
    if let Some(dst) = insn.written() {
        kinds[dst as usize] = kind;
    }
}

fn lies_in_context(size: Size, off: i16) -> bool
    ensures { result ≡ is_in_context size off }
{
    if off < 0 {
        return false;
    }
    let start = off as usize;
    let bytes = usize::from(size.bytes());
    start % bytes == 0 && start + bytes <= CONTEXT_BYTES
}

/// The base register of a load.
pub fn base_register(insn: Insn) -> Option<u8>
    ensures { result ≡ base_of insn }
{
    match insn {
        Insn::Load { src, .. } | Insn::LoadSigned { src, .. } => Some(src),
        _ => None,
    }
}

/// Whether a load reads outside the context, or isn't aligned.
pub fn is_load_outside(insn: Insn) -> bool
    ensures { result ≡ loads_outside insn }
{
    match insn {
        Insn::Load { size, off, .. } => !lies_in_context(size, off),
        Insn::LoadSigned { size, off, .. } => !lies_in_context(size, off),
        _ => false,
    }
}
