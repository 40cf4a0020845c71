//! The words of a line, one after the other.
ghost use Rattle.std.specs.Prelude.{◌≡◌, Some, None, MatchOption};
ghost use Rattle.doc_text.specs.Words.{words};
ghost use Rattle.line_picture.specs.Columns.{next_in, labelled_in, last_in};

use doc_text::{is_same, two_words, word_at};

/// The first word, and the text behind the blank after it.
#[tactic(auto, using(crate::proofs::NextWords::next_more))]
pub fn next_word(text: &[u8]) -> Option<(&[u8], &[u8])>
    ensures { MatchOption result
        (next_in (words text.now) ≡ None)
        (λ w. next_in (words text.now) ≡ Some (w.0.now, words w.1.now)) }
{
    let (word, rest) = word_at(text);
    Some((word, rest?))
}

/// The word behind a label, and the text behind the blank after it.
pub fn labelled<'a>(label: &[u8], text: &'a [u8]) -> Option<(&'a [u8], &'a [u8])>
    ensures { MatchOption result
        (labelled_in label.now (words text.now) ≡ None)
        (λ w. labelled_in label.now (words text.now) ≡ Some (w.0.now, words w.1.now)) }
{
    let (word, rest) = next_word(text)?;
    if !is_same(word, label) {
        return None;
    }
    next_word(rest)
}

/// The last word of a line, behind its label.
pub fn last<'a>(label: &[u8], text: &'a [u8]) -> Option<&'a [u8]>
    ensures { MatchOption result
        (last_in label.now (words text.now) ≡ None)
        (λ w. last_in label.now (words text.now) ≡ Some w.now) }
{
    let (word, value) = two_words(text)?;
    if !is_same(word, label) {
        return None;
    }
    Some(value)
}
