//! The policy line of a schedule.
ghost use Rattle.std.specs.Prelude.{◌≡◌, IfOk};
ghost use Rattle.doc_text.specs.Words.{words};
ghost use Rattle.shfl_sched.specs.Errors.{Allows};
ghost use Rattle.shfl_sched.specs.Lines.{policy_in};
ghost use Rattle.shfl_sched.specs.Grammar.{LoadsPolicy, ReadsRule};

use crate::faults::{POLICY, PROGRAM};
use crate::schedule::Rule;
use bpf_isa::Profile;
use policy_source::PolicySource;
use policy_text::{DocumentError, NoMemory, RuleSource, rule_source, text_behind};
use shfl_policy::{LoadError, load};
use std::alloc::Global;

fn rule_line(alloc: Global, text: &[u8]) -> Result<Option<RuleSource>, NoMemory>
    ensures { IfOk result (λ o. o ≡ policy_in (words text.now)) }
{
    match text_behind(b"policy", text) {
        Some(rule) => rule_source(alloc, rule),
        None => Ok(None),
    }
}

// The policy of the name 0 with these programs.
fn loaded(
    alloc: Global,
    profile: Profile,
    line: u32,
    source: &PolicySource,
) -> Result<Rule, DocumentError>
    ensures { Allows result (LoadsPolicy profile line source.now) }
{
    match load(alloc, 0, profile, source) {
        Ok(policy) => Ok(Rule::Program(policy)),
        Err(LoadError::NoMemory) => Err(DocumentError::NoMemory),
        Err(LoadError::Bad { .. }) => Err(DocumentError::Format {
            line,
            what: PROGRAM,
        }),
    }
}

/// The rule that a policy line says, its programs accepted in this profile.
#[tactic(auto, unfolding(crate::specs::Grammar::ReadsRule))]
pub fn rule_of(
    alloc: Global,
    profile: Profile,
    line: u32,
    text: &[u8],
) -> Result<Rule, DocumentError>
    ensures { Allows result (ReadsRule profile line text.now) }
{
    match rule_line(alloc, text)? {
        None => Err(DocumentError::Format { line, what: POLICY }),
        Some(RuleSource::Never) => Ok(Rule::Never),
        Some(RuleSource::Always) => Ok(Rule::Always),
        Some(RuleSource::Socket) => Ok(Rule::Socket),
        Some(RuleSource::Program(source)) => loaded(alloc, profile, line, &source),
    }
}
