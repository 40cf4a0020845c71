//! Loads from the context.
ghost use Rattle.std.specs.Prelude.{◌≡◌};
ghost use Rattle.bpf_run.specs.Instructions.{bits_loaded};
ghost use Rattle.bpf_run.specs.Operations.{loaded, loaded_signed};

use bpf_isa::Size;

/// The value of this size at an address, the lowest byte first, and 0 where it isn't all in the context.
pub fn load(size: Size, at: u64, context: &[u8; 40]) -> u64
    ensures { result ≡ loaded (bits_loaded size) at context.now }
{
    match size {
        Size::B => {
            if at > 39 {
                return 0;
            }
            u64::from(context[at as usize])
        }
        Size::H => {
            if at > 38 {
                return 0;
            }
            let at = at as usize;
            u64::from(u16::from_le_bytes([context[at], context[at + 1]]))
        }
        Size::W => {
            if at > 36 {
                return 0;
            }
            let at = at as usize;
            let bytes = [
                context[at],
                context[at + 1],
                context[at + 2],
                context[at + 3],
            ];
            u64::from(u32::from_le_bytes(bytes))
        }
        Size::DW => {
            if at > 32 {
                return 0;
            }
            let at = at as usize;
            u64::from_le_bytes([
                context[at],
                context[at + 1],
                context[at + 2],
                context[at + 3],
                context[at + 4],
                context[at + 5],
                context[at + 6],
                context[at + 7],
            ])
        }
    }
}

/// The same as a signed number.
pub fn load_signed(size: Size, at: u64, context: &[u8; 40]) -> u64
    ensures { result ≡ loaded_signed (bits_loaded size) at context.now }
{
    let value = load(size, at, context);
    match size {
        Size::B => i64::from((value as u8).cast_signed()).cast_unsigned(),
        Size::H => i64::from((value as u16).cast_signed()).cast_unsigned(),
        Size::W => i64::from((value as u32).cast_signed()).cast_unsigned(),
        Size::DW => value,
    }
}
