ghost use Rattle.std.specs.Prelude.{◌≡◌, ◌≤◌, Some, None, MatchOption, IfSome, option_map};
ghost use Rattle.doc_text.specs.Words.{words, is_word};
ghost use Rattle.trace_text.specs.Lines.{dir_in, name_in, entry_in, rename_in, count_in, next_in, attach_in, act_in, call_in};
ghost use Rattle.trace_text.specs.Spelled.{act_said, call_said};

use crate::spelled::{SpelledAct, SpelledCall};
use doc_text::{capped, four_words, is_same, one_word, two_words, word_at};

fn dir_of(word: &[u8]) -> Option<u8>
    ensures { result ≡ dir_in word.now }
{
    Some(capped(64, word)? as u8)
}

fn name_of(word: &[u8]) -> Option<&[u8]>
    ensures { option_map (λ n. n.now) result ≡ name_in word.now }
{
    match word {
        [] => None,
        _ => Some(word),
    }
}

fn entry_of(text: &[u8]) -> Option<(u8, &[u8])>
    ensures { option_map (λ e. (e.0, e.1.now)) result ≡ entry_in (words text.now) }
{
    let (dir, name) = two_words(text)?;
    let dir = dir_of(dir)?;
    let name = name_of(name)?;
    Some((dir, name))
}

fn rename_of(text: &[u8]) -> Option<SpelledAct<'_>>
    ensures { option_map act_said result ≡ rename_in (words text.now) }
{
    let (dir, name, to_dir, to_name) = four_words(text)?;
    let dir = dir_of(dir)?;
    let name = name_of(name)?;
    let to_dir = dir_of(to_dir)?;
    let to_name = name_of(to_name)?;
    Some(SpelledAct::Rename {
        dir,
        name,
        to_dir,
        to_name,
    })
}

fn count_of(text: &[u8]) -> Option<SpelledAct<'_>>
    ensures { option_map act_said result ≡ count_in (words text.now) }
{
    let dir = dir_of(one_word(text)?)?;
    Some(SpelledAct::Count { dir })
}

#[tactic(auto, using(crate::proofs::Shapes::words_after))]
fn next_of(text: &[u8]) -> Option<SpelledAct<'_>>
    ensures { option_map act_said result ≡ next_in (words text.now) }
{
    let (dir, rest) = word_at(text);
    let dir = dir_of(dir)?;
    match rest {
        None => Some(SpelledAct::Next { dir, after: None }),
        Some(rest) => {
            let name = name_of(one_word(rest)?)?;
            Some(SpelledAct::Next {
                dir,
                after: Some(name),
            })
        }
    }
}

fn attach_of(text: &[u8]) -> Option<SpelledAct<'_>>
    ensures { option_map act_said result ≡ attach_in (words text.now) }
{
    let name = name_of(one_word(text)?)?;
    Some(SpelledAct::Attach { name })
}

fn act_of<'a>(verb: &[u8], text: &'a [u8]) -> Option<SpelledAct<'a>>
    ensures { option_map act_said result ≡ act_in verb.now (words text.now) }
{
    if is_same(verb, b"make") {
        let (dir, name) = entry_of(text)?;
        Some(SpelledAct::Make { dir, name })
    } else if is_same(verb, b"drop") {
        let (dir, name) = entry_of(text)?;
        Some(SpelledAct::Drop { dir, name })
    } else if is_same(verb, b"rename") {
        rename_of(text)
    } else if is_same(verb, b"find") {
        let (dir, name) = entry_of(text)?;
        Some(SpelledAct::Find { dir, name })
    } else if is_same(verb, b"count") {
        count_of(text)
    } else if is_same(verb, b"next") {
        next_of(text)
    } else if is_same(verb, b"attach") {
        attach_of(text)
    } else {
        None
    }
}

/// The call that the words of a line say; its worker and its directories may be out of range.
pub fn shape_of(text: &[u8]) -> Option<SpelledCall<'_>>
    ensures { option_map call_said result ≡ call_in (words text.now) }
{
    let (worker, rest) = word_at(text);
    let (verb, rest) = word_at(rest?);
    let worker = capped(16, worker)? as u32;
    let act = act_of(verb, rest?)?;
    Some(SpelledCall { worker, act })
}
