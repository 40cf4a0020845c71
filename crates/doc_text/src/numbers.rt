ghost use Rattle.std.specs.Prelude.{◌≡◌, ◌+◌, ◌-◌, ◌*◌, ◌≤◌, ℕ, Some, IfSome, IsTrue, SomeIff, decimal};
ghost use Rattle.std.specs.Char.{is_ascii_digit};
ghost use Rattle.doc_text.specs.Numbers.{is_padded, is_decimal, number_in, capped_in};

fn is_padded(word: &[u8]) -> bool
    ensures { result ≡ is_padded word.now }
{
    match word {
        [] => true,
        [_] => false,
        [first, ..] => *first == b'0',
    }
}

/// Whether a word is a decimal number without a sign or a leading zero, however large.
pub fn is_decimal(word: &[u8]) -> bool
    ensures { result ≡ is_decimal word.now }
{
    if is_padded(word) {
        return false;
    }
    for b in word {
        if !b.is_ascii_digit() {
            return false;
        }
    }
    true
}

// The number with one more digit, where that is at most `most`.
fn with_digit(most: u64, value: u64, digit: u8) -> Option<u64>
    requires { IsTrue (is_ascii_digit digit) }
    ensures { SomeIff result (value * 10 + (digit - 48) ≤ most) (value * 10 + (digit - 48)) }
{
    let last = u64::from(digit - b'0');
    if last > most || value > (most - last) / 10 {
        return None;
    }
    Some(value * 10 + last)
}

fn bounded(most: u64, word: &[u8]) -> Option<u64>
    ensures { result ≡ number_in most word.now }
{
    if is_padded(word) {
        return None;
    }
    let mut value: u64 = 0;
    for b in word {
        if !b.is_ascii_digit() {
            return None;
        }
        match with_digit(most, value, *b) {
            Some(more) => value = more,
            None => return None,
        }
    }
    Some(value)
}

/// The decimal number that a word is, where it is at most `most`.
pub fn number(most: u64, word: &[u8]) -> Option<u64>
    ensures exact { result ≡ number_in most word.now }
    ensures within { IfSome result (λ n. n ≤ most) }
    // What is read is spelled so, and what is spelled so is read.
    ensures found { IfSome result (λ n. word.now ≡ decimal n) }
    ensures only { (n : ℕ) → n ≤ most → word.now ≡ decimal n → result ≡ Some n }
{
    bounded(most, word)
}

/// The decimal number that a word is, where `cap` stands for every larger one, so that a number out of range can be told
/// from one that is badly spelled.
pub fn capped(cap: u64, word: &[u8]) -> Option<u64>
    ensures exact { result ≡ capped_in cap word.now }
    ensures within { IfSome result (λ n. n ≤ cap) }
{
    if !is_decimal(word) {
        return None;
    }
    Some(number(cap, word).unwrap_or(cap))
}
