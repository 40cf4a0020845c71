//! Sets of passes, of which there are at most 64, as bits.
ghost use Rattle.std.specs.Prelude.{◌≤◌};

use doc_text::{is_same, number};

fn place_of(pass: &[u8]) -> u32
    ensures { result ≤ 63 }
{
    match number(63, pass) {
        Some(place) => place as u32,
        None => 0,
    }
}

/// Whether a pass is in the set.
pub fn has_pass(set: u64, pass: &[u8]) -> bool {
    (set >> place_of(pass)) % 2 == 1
}

/// The set with a pass more.
pub fn with_pass(set: u64, pass: &[u8]) -> u64 {
    set | (1u64 << place_of(pass))
}

/// The set without a pass.
pub fn without_pass(set: u64, pass: &[u8]) -> u64 {
    with_pass(set, pass) ^ (1u64 << place_of(pass))
}

/// The passes of a column.
pub fn passes_of(column: &[u8]) -> u64 {
    let mut set = 0;
    if is_same(column, b"-") {
        return set;
    }
    for part in column.split(|b| *b == b',') {
        set = with_pass(set, part);
    }
    set
}
