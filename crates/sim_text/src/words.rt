//! Words of a line, one behind the other.
ghost use Rattle.std.specs.Prelude.{◌≡◌, option_map};
ghost use Rattle.doc_text.specs.Words.{words};
ghost use Rattle.sim_text.specs.Said.{left_said};
ghost use Rattle.sim_text.specs.Words.{words_left, number_next, name_next};

use doc_text::{is_same, number, word_at};

/// A number of 32 bits, and the text behind it, where more words are left.
#[tactic(auto, unfolding(crate::specs::Words::number_next))]
pub fn number_next(left: Option<&[u8]>) -> Option<(u32, Option<&[u8]>)>
    ensures { option_map (λ x. (x.0, words_left (left_said x.1))) result
        ≡ number_next (words_left (left_said left.entry)) }
{
    let (word, rest) = word_at(left?);
    let n = number(4_294_967_295, word)? as u32;
    Some((n, rest))
}

/// The text behind a name, where more words are left.
#[tactic(auto, unfolding(crate::specs::Words::name_next))]
pub fn name_next<'a>(name: &[u8], text: &'a [u8]) -> Option<Option<&'a [u8]>>
    ensures { option_map (λ x. words_left (left_said x)) result
        ≡ name_next name.now (words text.now) }
{
    let (word, rest) = word_at(text);
    if is_same(word, name) {
        Some(rest)
    } else {
        None
    }
}
