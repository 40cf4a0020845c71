ghost use Rattle.std.specs.Prelude.{◌≡◌, IfOk, map};
ghost use Rattle.std.specs.Option.{option_map};
ghost use Rattle.doc_text.specs.Digits.{bytes_in};

use hex::FromHexError;
use std::alloc::{AllocError, Global};

/// The bytes that a word's hexadecimal digits write, in either case; none where a digit is bad or one is left over.
pub fn hex_bytes(alloc: Global, word: &[u8]) -> Result<Option<Vec<u8>>, AllocError>
    ensures { IfOk result (λ found. option_map (λ v. v.items) found ≡ bytes_in word.now) }
{
    match hex::decode(alloc, word) {
        Ok(bytes) => Ok(Some(bytes)),
        Err(FromHexError::OutOfMemory) => Err(AllocError),
        Err(_) => Ok(None),
    }
}
