ghost use Rattle.std.specs.Prelude.{◌≡◌, ◌∷◌, ◌++◌, [], ℕ, List, length, Some, None, MatchOption};
ghost use Rattle.doc_text.specs.Words.{words, HasNoBlank, same, one, two, three, four, five, six};

/// The first word, and the text behind the blank after it.
pub fn word_at(text: &[u8]) -> (&[u8], Option<&[u8]>)
    ensures parts { MatchOption result.1
        (words text.now ≡ result.0.now ∷ [])
        (λ rest. words text.now ≡ result.0.now ∷ words rest.now) }
    ensures whole { MatchOption result.1
        (text.now ≡ result.0.now)
        (λ rest. text.now ≡ result.0.now ++ 32 ∷ rest.now) }
    ensures no_blank { HasNoBlank result.0.now }
{
    for (i, b) in text.iter().enumerate() {
        if *b == b' ' {
            return (&text[..i], Some(&text[i + 1..]));
        }
    }
    (text, None)
}

/// Whether a word is this one.
pub fn is_same(word: &[u8], wanted: &[u8]) -> bool
    ensures { result ≡ same word.now wanted.now }
{
    word == wanted
}

/// The one word of a text.
#[tactic(auto, using(crate::proofs::Splitting::one_more))]
pub fn one_word(text: &[u8]) -> Option<&[u8]>
    ensures { MatchOption result
        (one (words text.now) ≡ None)
        (λ w. one (words text.now) ≡ Some w.now) }
{
    let (a, more) = word_at(text);
    match more {
        Some(_) => None,
        None => Some(a),
    }
}

/// The two words of a text.
#[tactic(auto, using(crate::proofs::Splitting::two_more))]
pub fn two_words(text: &[u8]) -> Option<(&[u8], &[u8])>
    ensures { MatchOption result
        (two (words text.now) ≡ None)
        (λ w. two (words text.now) ≡ Some (w.0.now, w.1.now)) }
{
    let (a, rest) = word_at(text);
    let (b, more) = word_at(rest?);
    match more {
        Some(_) => None,
        None => Some((a, b)),
    }
}

/// The three words of a text.
#[tactic(auto, using(crate::proofs::Splitting::three_more))]
pub fn three_words(text: &[u8]) -> Option<(&[u8], &[u8], &[u8])>
    ensures { MatchOption result
        (three (words text.now) ≡ None)
        (λ w. three (words text.now) ≡ Some (w.0.now, w.1.now, w.2.now)) }
{
    let (a, rest) = word_at(text);
    let (b, rest) = word_at(rest?);
    let (c, more) = word_at(rest?);
    match more {
        Some(_) => None,
        None => Some((a, b, c)),
    }
}

/// The four words of a text.
#[tactic(auto, using(crate::proofs::Splitting::four_more))]
pub fn four_words(text: &[u8]) -> Option<(&[u8], &[u8], &[u8], &[u8])>
    ensures { MatchOption result
        (four (words text.now) ≡ None)
        (λ w. four (words text.now) ≡ Some (w.0.now, w.1.now, w.2.now, w.3.now)) }
{
    let (a, rest) = word_at(text);
    let (b, rest) = word_at(rest?);
    let (c, rest) = word_at(rest?);
    let (d, more) = word_at(rest?);
    match more {
        Some(_) => None,
        None => Some((a, b, c, d)),
    }
}

/// The five words of a text.
#[tactic(auto, using(crate::proofs::Splitting::five_more))]
pub fn five_words(text: &[u8]) -> Option<(&[u8], &[u8], &[u8], &[u8], &[u8])>
    ensures { MatchOption result
        (five (words text.now) ≡ None)
        (λ w. five (words text.now) ≡ Some (w.0.now, w.1.now, w.2.now, w.3.now, w.4.now)) }
{
    let (a, rest) = word_at(text);
    let (b, rest) = word_at(rest?);
    let (c, rest) = word_at(rest?);
    let (d, rest) = word_at(rest?);
    let (e, more) = word_at(rest?);
    match more {
        Some(_) => None,
        None => Some((a, b, c, d, e)),
    }
}

/// The six words of a text.
#[tactic(auto, using(crate::proofs::Splitting::six_more))]
pub fn six_words(text: &[u8]) -> Option<(&[u8], &[u8], &[u8], &[u8], &[u8], &[u8])>
    ensures { MatchOption result
        (six (words text.now) ≡ None)
        (λ w. six (words text.now) ≡ Some (w.0.now, w.1.now, w.2.now, w.3.now, w.4.now, w.5.now)) }
{
    let (a, rest) = word_at(text);
    let (b, rest) = word_at(rest?);
    let (c, rest) = word_at(rest?);
    let (d, rest) = word_at(rest?);
    let (e, rest) = word_at(rest?);
    let (f, more) = word_at(rest?);
    match more {
        Some(_) => None,
        None => Some((a, b, c, d, e, f)),
    }
}
