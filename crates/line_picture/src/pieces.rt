//! Parts of a column around a colon.
ghost use Rattle.std.specs.Prelude.{◌≡◌, ◌<◌, length, IfSome};
ghost use Rattle.line_picture.specs.Lists.{colon_in, before_colon, behind_colon};

fn colon_in(word: &[u8]) -> Option<usize>
    ensures exact { result ≡ colon_in word.now }
    ensures within { IfSome result (λ i. i < length word.now) }
{
    word.iter().position(|b| *b == b':')
}

/// What stands before the first colon, and behind it; where there is none, all of it and nothing.
pub fn around_colon(word: &[u8]) -> (&[u8], &[u8])
    ensures before { result.0.now ≡ before_colon word.now }
    ensures behind { result.1.now ≡ behind_colon word.now }
{
    match colon_in(word) {
        Some(i) => (&word[..i], &word[i + 1..]),
        None => word.split_at(word.len()),
    }
}
