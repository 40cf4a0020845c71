//! What the waiter inside sees of a word: a state word without the two bits of parking, any other word as it is.
ghost use Rattle.std.specs.Prelude.{◌≡◌};
ghost use Rattle.shfl_core.specs.Words as words;
ghost use Rattle.shfl_park.specs.Parking as parking;

use shfl_core::words::site;
use shfl_core::{Access, Word};
use shfl_line::PARKED;

// What `found` is to the waiter inside, whose operation found it. The bit of `SPIN` stands next to that of `PARKED`.
pub(crate) fn cleared(access: Access, found: u64) -> u64
    ensures { result ≡ parking.cleared (words.site access) found }
{
    match site(access) {
        Word::State(_) => found - found / PARKED % 4 * PARKED,
        _ => found,
    }
}
