//! Registers, numbers, names and places as words.
ghost use Rattle.std.specs.Prelude.{◌≡◌, ◌^◌, ◌-◌, ◌≤◌, ◌<◌, ℕ, ℤ, List, Result, Ok, Err, neg_ℤ, pos, IfOk, min};
ghost use Rattle.std.specs.List.{list_all};
ghost use Rattle.bpf_asm.specs.Faults.{both};
ghost use Rattle.bpf_asm.specs.Operands.{magnitude_in, signed_in, short_in, long_in, wide_in, register_number, register_in, source_in, is_name_byte, is_name, place_in};
ghost use Rattle.bpf_asm.specs.Views.{IsPlaceOf, IsShortPlaceOf};

use bpf_isa::Operand;
use doc_text::{is_decimal, number};

/// A line of no form, or a badly spelled word.
pub const NO_FORM: u8 = 2;

/// A register above 9.
pub const NO_REGISTER: u8 = 3;

/// A number out of its range.
pub const OUT_OF_RANGE: u8 = 4;

/// Where a jump leads: over so many slots, or to a named slot.
#[derive(Clone, Copy)]
pub enum Place<'a> {
    By(i32),
    To(&'a [u8]),
}

/// The same for a jump of 16 bits.
#[derive(Clone, Copy)]
pub enum ShortPlace<'a> {
    By(i16),
    To(&'a [u8]),
}

/// The lowest fault of two words.
pub fn both<A: Drop, B: Drop>(a: Result<A, u8>, b: Result<B, u8>) -> Result<(A, B), u8>
    ensures { result ≡ both a b }
{
    match (a, b) {
        (Ok(a), Ok(b)) => Ok((a, b)),
        (Ok(_), Err(e)) => Err(e),
        (Err(e), Ok(_)) => Err(e),
        (Err(d), Err(e)) => Err(d.min(e)),
    }
}

/// A well-spelled number of at most this.
fn magnitude(most: u64, word: &[u8]) -> Result<u64, u8>
    ensures exact { result ≡ magnitude_in most word.now }
    ensures within { IfOk result (λ n. n ≤ most) }
{
    if !is_decimal(word) {
        return Err(NO_FORM);
    }
    match number(most, word) {
        Some(n) => Ok(n),
        None => Err(OUT_OF_RANGE),
    }
}

/// A number from minus `low` to `high`.
fn signed(low: u32, high: u32, word: &[u8]) -> Result<i64, u8>
    ensures exact { result ≡ signed_in low high word.now }
{
    match word {
        [] => Err(NO_FORM),
        [b'-', digits @ ..] => {
            let n = magnitude(u64::from(low), digits)?;
            if n == 0 {
                return Err(NO_FORM);
            }
            Ok(-(n as i64))
        }
        _ => {
            let n = magnitude(u64::from(high), word)?;
            Ok(n as i64)
        }
    }
}

/// A number of 32 bits.
pub fn long(word: &[u8]) -> Result<i32, u8>
    ensures { result ≡ long_in word.now }
{
    let n = signed(0x8000_0000, 0x7fff_ffff, word)?;
    Ok(n as i32)
}

/// A number of 16 bits.
pub fn short(word: &[u8]) -> Result<i16, u8>
    ensures { result ≡ short_in word.now }
{
    let n = signed(0x8000, 0x7fff, word)?;
    Ok(n as i16)
}

/// A number of 64 bits without a sign; one below 0 is out of its range.
pub fn wide(word: &[u8]) -> Result<u64, u8>
    ensures { result ≡ wide_in word.now }
{
    match word {
        [] => Err(NO_FORM),
        [b'-', digits @ ..] => {
            magnitude(0, digits)?;
            Err(NO_FORM)
        }
        _ => magnitude(u64::MAX, word),
    }
}

fn register_digits(digits: &[u8]) -> Result<u8, u8>
    ensures { result ≡ register_number digits.now }
{
    if !is_decimal(digits) {
        return Err(NO_FORM);
    }
    match number(9, digits) {
        Some(n) => Ok(n as u8),
        None => Err(NO_REGISTER),
    }
}

/// `r` and the number of a register.
pub fn register(word: &[u8]) -> Result<u8, u8>
    ensures { result ≡ register_in word.now }
{
    match word {
        [b'r', digits @ ..] => register_digits(digits),
        _ => Err(NO_FORM),
    }
}

/// A register, where the word begins with `r`, else a number of 32 bits.
pub fn source(word: &[u8]) -> Result<Operand, u8>
    ensures { result ≡ source_in word.now }
{
    match word {
        [] => Err(NO_FORM),
        [b'r', digits @ ..] => {
            let register = register_digits(digits)?;
            Ok(Operand::Reg(register))
        }
        _ => {
            let n = long(word)?;
            Ok(Operand::Imm(n))
        }
    }
}

fn is_name_byte(b: u8) -> bool
    ensures { result ≡ is_name_byte b }
{
    (b >= b'a' && b <= b'z') || (b >= b'0' && b <= b'9') || b == b'_'
}

fn has_name_bytes(word: &[u8]) -> bool
    ensures { result ≡ list_all is_name_byte word.now }
{
    for b in word {
        if !is_name_byte(*b) {
            return false;
        }
    }
    true
}

/// Whether a word is 1 to 32 of `a` to `z`, `0` to `9`, `_`.
pub fn is_name(word: &[u8]) -> bool
    ensures { result ≡ is_name word.now }
{
    word.len() >= 1 && word.len() <= 32 && has_name_bytes(word)
}

/// A place of a jump of 16 bits.
pub fn short_place(word: &[u8]) -> Result<ShortPlace<'_>, u8>
    ensures { IsShortPlaceOf result (place_in short_in word.now) }
{
    match word {
        [] => Err(NO_FORM),
        [b'@', name @ ..] => {
            if is_name(name) {
                Ok(ShortPlace::To(name))
            } else {
                Err(NO_FORM)
            }
        }
        _ => {
            let off = short(word)?;
            Ok(ShortPlace::By(off))
        }
    }
}

/// A place of a jump of 32 bits.
pub fn long_place(word: &[u8]) -> Result<Place<'_>, u8>
    ensures { IsPlaceOf result (place_in long_in word.now) }
{
    match word {
        [] => Err(NO_FORM),
        [b'@', name @ ..] => {
            if is_name(name) {
                Ok(Place::To(name))
            } else {
                Err(NO_FORM)
            }
        }
        _ => {
            let off = long(word)?;
            Ok(Place::By(off))
        }
    }
}
