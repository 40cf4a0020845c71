//! The words behind `bulk`.
ghost use Rattle.std.specs.Prelude.{◌≡◌, [], ◌∷◌, map, string_bytes, IfSome};
ghost use Rattle.command_words.specs.Numbers.{AreInRange, spelled, numbers_in, words_in};

use doc_text::number;

/// What a bulk run is asked for.
#[derive(Clone, Copy, Debug, PartialEq, Eq)]
pub struct BulkWords {
    pub seed: u64,
    /// 1 to 16.
    pub workers: u32,
    /// At most 65,000.
    pub calls: u32,
}

fn numbers_of(seed: &[u8], workers: &[u8], calls: &[u8]) -> Option<BulkWords>
    ensures exact { result ≡ numbers_in seed.now workers.now calls.now }
    ensures within { IfSome result AreInRange }
    ensures spelled { IfSome result (λ b. seed.now ∷ workers.now ∷ calls.now ∷ [] ≡ spelled b) }
{
    let seed = number(u64::MAX, seed)?;
    let workers = number(16, workers)?;
    let calls = number(65_000, calls)?;
    if workers == 0 {
        return None;
    }
    Some(BulkWords {
        seed,
        workers: workers as u32,
        calls: calls as u32,
    })
}

/// The numbers that the words behind `bulk` are: `SEED WORKERS CALLS` in decimal.
pub fn bulk_words(words: &[String]) -> Option<BulkWords>
    ensures exact { result ≡ words_in (map string_bytes words.now) }
    ensures within { IfSome result AreInRange }
    ensures spelled { IfSome result (λ b. map string_bytes words.now ≡ spelled b) }
{
    match words {
        [seed, workers, calls] => numbers_of(seed.as_bytes(), workers.as_bytes(), calls.as_bytes()),
        _ => None,
    }
}
