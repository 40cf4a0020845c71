ghost use Rattle.std.specs.Prelude.{◌≡◌, ◌+◌, ◌^◌, ◌<◌, ◌≤◌, [], length, IfOk};
ghost use Rattle.hex.specs.Hex.{is_hex_digit};
ghost use Rattle.doc_text.specs.Faults.{GivesOrWants};
ghost use Rattle.doc_text.specs.Spread.{is_blank, digits_from, spread_bytes};
ghost use Rattle.doc_text.specs.Errors.{fault_of};
ghost use Rattle.doc_text.specs.declared.spread.DigitsError.TheVariants.{NoMemory};

use crate::fault::Fault;
use crate::hexadecimal::hex_bytes;
use std::alloc::{AllocError, AllocFailed, Global};

/// Why bytes are no hexadecimal digits with blanks between them.
#[derive(Clone, Copy, Debug, PartialEq, Eq)]
pub enum DigitsError {
    /// 1: a byte that is neither a digit nor a blank; 2: a digit left over.
    Format { line: u32, what: u8 },
    NoMemory,
}

impl From<AllocError> for DigitsError {
    ghost from_gives = { λ _ e. e ≡ NoMemory };

    fn from(_: AllocError) -> Self {
        DigitsError::NoMemory
    }
}

impl<T: Drop> From<AllocFailed<T>> for DigitsError {
    ghost from_gives = { λ _ e. e ≡ NoMemory };

    fn from(_: AllocFailed<T>) -> Self {
        DigitsError::NoMemory
    }
}

fn is_digit(byte: u8) -> bool
    ensures { result ≡ is_hex_digit byte }
{
    matches!(byte, b'A'..=b'F' | b'a'..=b'f' | b'0'..=b'9')
}

fn is_blank(byte: u8) -> bool
    ensures { result ≡ is_blank byte }
{
    matches!(byte, b' ' | b'\t' | b'\r' | b'\n')
}

// The digits, and the last line.
#[tactic(auto, unfolding(crate::specs::Spread::digits_from))]
fn digits_of(alloc: Global, input: &[u8]) -> Result<(Vec<u8>, u32), DigitsError>
    requires { length input.now + 1 < 2 ^ 32 }
    ensures { GivesOrWants fault_of (λ x. (x.0.items, x.1)) result (digits_from [] 1 input.now) }
{
    let mut digits = Vec::new(alloc);
    let mut line = 1;
    for b in input {
        if is_digit(*b) {
            digits.push(*b)?;
        } else if is_blank(*b) {
            if *b == b'\n' {
                line += 1;
            }
        } else {
            return Err(DigitsError::Format { line, what: 1 });
        }
    }
    Ok((digits, line))
}

/// The bytes that hexadecimal digits write, two a byte, in either case and with blanks anywhere.
#[tactic(auto, unfolding(crate::specs::Spread::spread_bytes))]
pub fn spread_bytes(alloc: Global, input: &[u8]) -> Result<Vec<u8>, DigitsError>
    requires { length input.now + 1 < 2 ^ 32 }
    ensures { GivesOrWants fault_of (λ v. v.items) result (spread_bytes input.now) }
{
    let (digits, line) = digits_of(alloc, input)?;
    match hex_bytes(alloc, digits.as_slice())? {
        Some(bytes) => Ok(bytes),
        None => Err(DigitsError::Format { line, what: 2 }),
    }
}
