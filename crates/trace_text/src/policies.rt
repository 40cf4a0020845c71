ghost use Rattle.std.specs.Prelude.{◌≡◌, ◌<◌, ◌≤◌, ◌+◌, ◌^◌, [], length, map, IfOk, OnSome, IfNone, option_map};
ghost use Rattle.doc_text.specs.Text.{pieces};
ghost use Rattle.doc_text.specs.Words.{words};
ghost use Rattle.doc_text.specs.Faults.{GivesOrWants};
ghost use Rattle.policy_text.specs.Errors.{fault_of, Allows};
ghost use Rattle.trace_text.specs.Lines.{is_name_byte, is_policy_name, policy_in, is_declared};
ghost use Rattle.trace_text.specs.Grammar.{policy_says, ReadsPolicies};
ghost use Rattle.trace_text.specs.Traces.{policy_of};

use crate::faults::{AGAIN, DIGITS, POLICIES, POLICY, PROGRAM};
use crate::trace::NamedSource;
use bpf_isa::Profile;
use doc_text::{four_words, is_same, text_at};
use policy_text::{DocumentError, accepts, source_of};
use std::alloc::Global;

fn is_name_byte(byte: u8) -> bool
    ensures { result ≡ is_name_byte byte }
{
    matches!(byte, b'a'..=b'z' | b'0'..=b'9' | b'-' | b'_')
}

fn is_policy_name(word: &[u8]) -> bool
    ensures { result ≡ is_policy_name word.now }
{
    if word.is_empty() || word.len() > 32 {
        return false;
    }
    for b in word {
        if !is_name_byte(*b) {
            return false;
        }
    }
    true
}

// The name and the two programs of a policy line, as words.
fn policy_words(text: &[u8]) -> Option<(&[u8], &[u8], &[u8])>
    ensures { option_map (λ p. record { name = p.0.now; should = p.1.now; skip = p.2.now }) result
        ≡ policy_in (words text.now) }
{
    let (word, name, should, skip) = four_words(text)?;
    if is_same(word, b"policy") && is_policy_name(name) && !should.is_empty() && !skip.is_empty() {
        Some((name, should, skip))
    } else {
        None
    }
}

/// Whether some policy has this name.
pub fn is_declared(policies: &[NamedSource], name: &[u8]) -> bool
    ensures { result ≡ is_declared (map policy_of policies.now) name.now }
{
    for policy in policies {
        if is_same(policy.name.as_slice(), name) {
            return true;
        }
    }
    false
}

#[tactic(auto, unfolding(crate::specs::Grammar::policy_says))]
fn policy_says(
    alloc: Global,
    before: &[NamedSource],
    line: u32,
    text: &[u8],
) -> Result<Option<NamedSource>, DocumentError>
    ensures exact { GivesOrWants fault_of (option_map policy_of) result
        (policy_says (map policy_of before.now) line text.now) }
    ensures room { IfOk result (λ o. OnSome o (length before.now < 64)) }
    ensures some { IfOk result (λ o. IfNone o (0 < length before.now)) }
{
    if is_same(text, b"calls") {
        return if before.is_empty() {
            Err(DocumentError::Format { line, what: POLICY })
        } else {
            Ok(None)
        };
    }
    let Some((name, should, skip)) = policy_words(text) else {
        return Err(DocumentError::Format { line, what: POLICY });
    };
    if before.len() >= 64 {
        return Err(DocumentError::Format {
            line,
            what: POLICIES,
        });
    }
    if is_declared(before, name) {
        return Err(DocumentError::Format { line, what: AGAIN });
    }
    let Some(source) = source_of(alloc, should, skip)? else {
        return Err(DocumentError::Format { line, what: DIGITS });
    };
    let name = Vec::from_slice(alloc, name)?;
    Ok(Some(NamedSource { name, source }))
}

/// The policies of a trace, each accepted, and the bytes from the line `calls` on.
pub fn policies_of(
    alloc: Global,
    profile: Profile,
    bytes: &[u8],
    first: u32,
) -> Result<(Vec<NamedSource>, &[u8]), DocumentError>
    requires { first < 20 }
    ensures exact { Allows (λ x. (map policy_of x.0.items, pieces x.1.now)) result
        (ReadsPolicies profile [] first (pieces bytes.now)) }
    ensures few { IfOk result (λ x. length x.0.items ≤ 64) }
    ensures some { IfOk result (λ x. 0 < length x.0.items) }
{
    let mut policies: Vec<NamedSource> = Vec::new(alloc);
    let mut rest = bytes;
    let mut line = first;
    while !rest.is_empty() {
        let Some((text, after)) = text_at(rest) else {
            return Err(DocumentError::Format { line, what: 1 });
        };
        let Some(policy) = policy_says(alloc, policies.as_slice(), line, text)? else {
            return Ok((policies, rest));
        };
        if !accepts(alloc, profile, &policy.source)? {
            return Err(DocumentError::Format {
                line,
                what: PROGRAM,
            });
        }
        policies.push(policy)?;
        rest = after;
        line += 1;
    }
    Err(DocumentError::Format { line, what: POLICY })
}
