//! The rule of a policy as the last words of a line.
ghost use Rattle.std.specs.Prelude.{◌≡◌, IfOk, option_map};
ghost use Rattle.doc_text.specs.Words.{words};
ghost use Rattle.policy_text.specs.Rules.{words_behind, rule_named, simple_rule_in, program_words_in, program_rule_in, rule_in};

use crate::error::NoMemory;
use crate::programs::source_of;
use doc_text::{is_same, one_word, three_words, word_at};
use policy_source::PolicySource;
use std::alloc::Global;

/// What the words of a rule say, the programs as their bytes.
#[derive(Drop)]
pub enum RuleSource {
    Never,
    Always,
    Socket,
    Program(PolicySource),
}

/// The text behind the first word of a line, where it is this one and more words follow.
#[tactic(auto, using(crate::proofs::FirstWords::behind_more))]
pub fn text_behind<'a>(word: &[u8], text: &'a [u8]) -> Option<&'a [u8]>
    ensures { option_map (λ t. words t.now) result ≡ words_behind word.now (words text.now) }
{
    let (first, rest) = word_at(text);
    if is_same(first, word) { rest } else { None }
}

fn rule_named(word: &[u8]) -> Option<RuleSource>
    ensures { result ≡ rule_named word.now }
{
    if is_same(word, b"never") {
        Some(RuleSource::Never)
    } else if is_same(word, b"always") {
        Some(RuleSource::Always)
    } else if is_same(word, b"socket") {
        Some(RuleSource::Socket)
    } else {
        None
    }
}

fn simple_rule(text: &[u8]) -> Option<RuleSource>
    ensures { result ≡ simple_rule_in (words text.now) }
{
    rule_named(one_word(text)?)
}

// The two words of the programs.
fn program_words(text: &[u8]) -> Option<(&[u8], &[u8])>
    ensures { option_map (λ w. (w.0.now, w.1.now)) result ≡ program_words_in (words text.now) }
{
    let (kind, should, skip) = three_words(text)?;
    if !is_same(kind, b"program") || should.is_empty() || skip.is_empty() {
        return None;
    }
    Some((should, skip))
}

fn program_rule(alloc: Global, text: &[u8]) -> Result<Option<RuleSource>, NoMemory>
    ensures { IfOk result (λ o. o ≡ program_rule_in (words text.now)) }
{
    let Some((should, skip)) = program_words(text) else {
        return Ok(None);
    };
    match source_of(alloc, should, skip)? {
        Some(source) => Ok(Some(RuleSource::Program(source))),
        None => Ok(None),
    }
}

/// The rule that a text says: `never`, `always`, `socket`, or `program` and two programs as words.
pub fn rule_source(alloc: Global, text: &[u8]) -> Result<Option<RuleSource>, NoMemory>
    ensures { IfOk result (λ o. o ≡ rule_in (words text.now)) }
{
    match simple_rule(text) {
        Some(rule) => Ok(Some(rule)),
        None => program_rule(alloc, text),
    }
}
