//! The lines of a setup up to its policies, word by word.
ghost use Rattle.std.specs.Prelude.{◌≡◌, ◌<◌, ◌≤◌, ◌+◌, IfSome, nat_le, option_map};
ghost use Rattle.doc_text.specs.Words.{words};
ghost use Rattle.sim_text.specs.Lines.{layout_named, layout_in};
ghost use Rattle.sim_text.specs.Lines.{one_seed, count_in, several_seeds, seeds_in};
ghost use Rattle.sim_text.specs.Lines.{wide_in, until_alone, until_turns, turns_in, until_in};

use crate::setup::Seeds;
use doc_text::{four_words, is_same, number, three_words};
use lock_words::behind;
use sim_setup::Layout;

fn layout_named(word: &[u8]) -> Option<Layout>
    ensures { result ≡ layout_named word.now }
{
    if is_same(word, b"padded") {
        Some(Layout::Padded)
    } else if is_same(word, b"joined") {
        Some(Layout::Joined)
    } else if is_same(word, b"packed") {
        Some(Layout::Packed)
    } else {
        None
    }
}

/// `layout L`.
pub fn layout_of(text: &[u8]) -> Option<Layout>
    ensures { result ≡ layout_in (words text.now) }
{
    layout_named(behind(b"layout", text)?)
}

// A number of 64 bits.
fn wide_of(word: &[u8]) -> Option<u64>
    ensures { result ≡ wide_in word.now }
{
    number(u64::MAX, word)
}

fn until_alone(text: &[u8]) -> Option<(u64, u32)>
    ensures { result ≡ until_alone (words text.now) }
{
    let until = wide_of(behind(b"until", text)?)?;
    Some((until, 100_000_000))
}

fn turns_of(word: &[u8]) -> Option<u32>
    ensures { result ≡ turns_in word.now }
{
    let turns = number(100_000_000, word)?;
    if turns == 0 {
        return None;
    }
    Some(turns as u32)
}

fn until_turns(text: &[u8]) -> Option<(u64, u32)>
    ensures { result ≡ until_turns (words text.now) }
{
    let (word, until, other, turns) = four_words(text)?;
    if !is_same(word, b"until") || !is_same(other, b"turns") {
        return None;
    }
    let until = wide_of(until)?;
    let turns = turns_of(turns)?;
    Some((until, turns))
}

/// `until T`, or `until T turns N`.
pub fn until_of(text: &[u8]) -> Option<(u64, u32)>
    ensures { result ≡ until_in (words text.now) }
{
    match until_alone(text) {
        Some(until) => Some(until),
        None => until_turns(text),
    }
}

fn one_seed(text: &[u8]) -> Option<Seeds>
    ensures exact { result ≡ one_seed (words text.now) }
    ensures one { IfSome result (λ s. s.count ≡ 1) }
{
    let first = wide_of(behind(b"seed", text)?)?;
    Some(Seeds { first, count: 1 })
}

fn count_of(word: &[u8]) -> Option<u32>
    ensures exact { result ≡ count_in word.now }
    ensures some { IfSome result (λ n. (5 ≤ n) × (n ≤ 1000)) }
{
    let count = number(1000, word)?;
    if count < 5 {
        return None;
    }
    Some(count as u32)
}

// Whether the last of so many seeds is a number of 64 bits.
fn are_wide(first: u64, count: u32) -> bool
    requires { 0 < count }
    ensures { result ≡ nat_le (first + count) 18446744073709551616 }
{
    first <= u64::MAX - (u64::from(count) - 1)
}

fn several_seeds(text: &[u8]) -> Option<Seeds>
    ensures exact { result ≡ several_seeds (words text.now) }
    ensures some { IfSome result (λ s. 0 < s.count) }
    ensures wide { IfSome result (λ s. s.first + s.count ≤ 18446744073709551616) }
{
    let (word, first, count) = three_words(text)?;
    if !is_same(word, b"seeds") {
        return None;
    }
    let first = wide_of(first)?;
    let count = count_of(count)?;
    if !are_wide(first, count) {
        return None;
    }
    Some(Seeds { first, count })
}

/// `seed S`, or `seeds FIRST COUNT`.
pub fn seeds_of(text: &[u8]) -> Option<Seeds>
    ensures exact { result ≡ seeds_in (words text.now) }
    ensures some { IfSome result (λ s. 0 < s.count) }
    ensures wide { IfSome result (λ s. s.first + s.count ≤ 18446744073709551616) }
{
    match one_seed(text) {
        Some(seeds) => Some(seeds),
        None => several_seeds(text),
    }
}
