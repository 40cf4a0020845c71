//! The policy lines of a setup.
ghost use Rattle.std.specs.Prelude.{◌≡◌, ◌<◌, ◌≤◌, [], length, IfOk, OnSome, IfNone, option_map};
ghost use Rattle.doc_text.specs.Text.{pieces};
ghost use Rattle.doc_text.specs.Words.{words};
ghost use Rattle.doc_text.specs.Faults.{GivesOrWants};
ghost use Rattle.policy_text.specs.Errors.{fault_of, Allows};
ghost use Rattle.sim_text.specs.Lines.{is_name, named_in, policy_in};
ghost use Rattle.sim_text.specs.Said.{line_said};
ghost use Rattle.sim_text.specs.Grammar.{policy_says, LoadsPolicy, ReadsRule, ReadsPolicies};

use crate::faults::{POLICIES, POLICY, PROGRAM};
use crate::setup::{Candidate, Rule};
use bpf_isa::Profile;
use doc_text::{text_at, word_at};
use policy_source::PolicySource;
use policy_text::{DocumentError, NoMemory, RuleSource, begins, rule_source, text_behind};
use shfl_policy::{LoadError, load};
use sim_setup::BuiltIn;
use std::alloc::Global;

/// What a policy line says.
#[derive(Drop)]
pub struct NamedLine {
    name: Vec<u8>,
    rule: RuleSource,
}

fn is_name(word: &[u8]) -> bool
    ensures { result ≡ is_name word.now }
{
    !word.is_empty() && word.len() <= 32
}

// A name, and the text of a rule behind it.
fn named(alloc: Global, text: &[u8]) -> Result<Option<NamedLine>, NoMemory>
    ensures { IfOk result (λ o. option_map line_said o ≡ named_in (words text.now)) }
{
    let (name, rest) = word_at(text);
    if !is_name(name) {
        return Ok(None);
    }
    let Some(rest) = rest else {
        return Ok(None);
    };
    let Some(rule) = rule_source(alloc, rest)? else {
        return Ok(None);
    };
    let name = Vec::from_slice(alloc, name)?;
    Ok(Some(NamedLine { name, rule }))
}

fn policy_line(alloc: Global, text: &[u8]) -> Result<Option<NamedLine>, NoMemory>
    ensures { IfOk result (λ o. option_map line_said o ≡ policy_in (words text.now)) }
{
    match text_behind(b"policy", text) {
        Some(rest) => named(alloc, rest),
        None => Ok(None),
    }
}

#[tactic(auto, unfolding(crate::specs::Grammar::policy_says))]
fn policy_says(
    alloc: Global,
    before: &[Candidate],
    line: u32,
    text: &[u8],
) -> Result<Option<NamedLine>, DocumentError>
    ensures exact { GivesOrWants fault_of (option_map line_said) result
        (policy_says before.now line text.now) }
    ensures room { IfOk result (λ o. OnSome o (length before.now < 16)) }
    ensures some { IfOk result (λ o. IfNone o (0 < length before.now)) }
{
    if begins(b"pass", text) {
        return if before.is_empty() {
            Err(DocumentError::Format { line, what: POLICY })
        } else {
            Ok(None)
        };
    }
    let Some(policy) = policy_line(alloc, text)? else {
        return Err(DocumentError::Format { line, what: POLICY });
    };
    if before.len() >= 16 {
        return Err(DocumentError::Format {
            line,
            what: POLICIES,
        });
    }
    Ok(Some(policy))
}

// The policy of the name 0 with these programs.
fn loaded(
    alloc: Global,
    profile: Profile,
    line: u32,
    source: &PolicySource,
) -> Result<Rule, DocumentError>
    ensures { Allows (λ r. r) result (LoadsPolicy profile line source.now) }
{
    match load(alloc, 0, profile, source) {
        Ok(policy) => Ok(Rule::Program(policy)),
        Err(LoadError::NoMemory) => Err(DocumentError::NoMemory),
        Err(LoadError::Bad { .. }) => Err(DocumentError::Format {
            line,
            what: PROGRAM,
        }),
    }
}

#[tactic(auto, unfolding(crate::specs::Grammar::ReadsRule))]
fn rule_of(
    alloc: Global,
    profile: Profile,
    line: u32,
    rule: RuleSource,
) -> Result<Rule, DocumentError>
    ensures { Allows (λ r. r) result (ReadsRule profile line rule) }
{
    match rule {
        RuleSource::Never => Ok(Rule::Simple(BuiltIn::Never)),
        RuleSource::Always => Ok(Rule::Simple(BuiltIn::Always)),
        RuleSource::Socket => Ok(Rule::Simple(BuiltIn::Socket)),
        RuleSource::Program(source) => loaded(alloc, profile, line, &source),
    }
}

/// The policies of a setup, each accepted, and the bytes from the first pass on.
pub fn policies_of(
    alloc: Global,
    profile: Profile,
    bytes: &[u8],
) -> Result<(Vec<Candidate>, &[u8]), DocumentError>
    ensures exact { Allows (λ x. (x.0.items, pieces x.1.now)) result
        (ReadsPolicies profile [] 10 (pieces bytes.now)) }
    ensures few { IfOk result (λ x. length x.0.items ≤ 16) }
    ensures some { IfOk result (λ x. 0 < length x.0.items) }
{
    let mut policies: Vec<Candidate> = Vec::new(alloc);
    let mut rest = bytes;
    let mut line = 10;
    while !rest.is_empty() {
        let Some((text, after)) = text_at(rest) else {
            return Err(DocumentError::Format { line, what: 1 });
        };
        let Some(policy) = policy_says(alloc, policies.as_slice(), line, text)? else {
            return Ok((policies, rest));
        };
        let rule = rule_of(alloc, profile, line, policy.rule)?;
        policies.push(Candidate {
            name: policy.name,
            rule,
        })?;
        rest = after;
        line += 1;
    }
    Err(DocumentError::Format { line, what: POLICY })
}
