//! The limit of a lock's batches, in decimal digits.
ghost use Rattle.std.specs.Prelude.{◌≡◌, ◌<◌, ◌≤◌, IfSome};
ghost use Rattle.lock_words.specs.Forms.{batch_in};

use doc_text::number;

/// The limit that a word writes, 1 to 1024, if it writes one.
pub fn batch_of(word: &[u8]) -> Option<u16>
    ensures exact { result ≡ batch_in word.now }
    ensures within { IfSome result (λ n. (0 < n) × (n ≤ 1024)) }
{
    let batch = number(1024, word)?;
    if batch == 0 {
        return None;
    }
    Some(batch as u16)
}
