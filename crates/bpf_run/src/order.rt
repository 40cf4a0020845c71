//! Sign-extending moves and byte swaps.
ghost use Rattle.std.specs.Prelude.{◌≡◌};
ghost use Rattle.std.specs.Int.{w32, w64};
ghost use Rattle.bpf_run.specs.Operations.{moved_signed, swapped};

use bpf_isa::Order;

/// The low bits of a value as a signed number of 64 bits.
pub fn extend_64(count: u8, a: u64) -> u64
    ensures { result ≡ moved_signed w64 count a }
{
    match count {
        8 => i64::from(((a % 0x100) as u8).cast_signed()).cast_unsigned(),
        16 => i64::from(((a % 0x1_0000) as u16).cast_signed()).cast_unsigned(),
        _ => i64::from(((a % 0x1_0000_0000) as u32).cast_signed()).cast_unsigned(),
    }
}

/// The low bits of a value as a signed number of 32 bits.
pub fn extend_32(count: u8, a: u64) -> u32
    ensures { result ≡ moved_signed w32 count a }
{
    match count {
        8 => i32::from(((a % 0x100) as u8).cast_signed()).cast_unsigned(),
        16 => i32::from(((a % 0x1_0000) as u16).cast_signed()).cast_unsigned(),
        _ => (a % 0x1_0000_0000) as u32,
    }
}

/// The low bits of a value, as they are or with their bytes reversed; the rest is cleared.
pub fn swap(order: Order, count: u8, a: u64) -> u64
    ensures { result ≡ swapped order count a }
{
    let low_16 = (a % 0x1_0000) as u16;
    let low_32 = (a % 0x1_0000_0000) as u32;
    match (order, count) {
        (Order::Little, 16) => u64::from(low_16),
        (Order::Little, 32) => u64::from(low_32),
        (Order::Little, _) => a,
        (Order::Big | Order::Swap, 16) => u64::from(low_16.swap_bytes()),
        (Order::Big | Order::Swap, 32) => u64::from(low_32.swap_bytes()),
        (Order::Big | Order::Swap, _) => a.swap_bytes(),
    }
}
