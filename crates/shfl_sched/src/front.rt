//! The lines of a schedule up to its policy.
ghost use Rattle.std.specs.Prelude.{◌≡◌, ◌≤◌, IfOk};
ghost use Rattle.doc_text.specs.Text.{pieces};
ghost use Rattle.doc_text.specs.Faults.{Gives};
ghost use Rattle.shfl_sched.specs.Grammar.{front_in};
ghost use Rattle.shfl_sched.specs.Said.{front_said};

use crate::faults::{FORM, LIMIT, POLICY, PROFILE};
use bpf_isa::Profile;
use doc_text::{Fault, line_due};
use lock_words::{form_due, limit_due};
use policy_text::heading_of;
use shfl_line::Form;

/// What these lines say, the text of the policy line among them, and the bytes behind them.
#[derive(Drop)]
pub struct Front<'a> {
    pub version: u8,
    pub profile: Profile,
    pub form: Form,
    pub limit: u16,
    pub policy: &'a [u8],
    pub rest: &'a [u8],
}

/// The lines up to the policy, whose line may still be bad.
#[tactic(auto, unfolding(crate::specs::Grammar::front_in))]
pub fn front_of(bytes: &[u8]) -> Result<Front<'_>, Fault>
    ensures exact { Gives front_said result (front_in (pieces bytes.now)) }
    ensures known { IfOk result (λ f. f.version ≤ 2) }
{
    let (version, profile, rest) = heading_of(b"shfl-line", PROFILE, bytes)?;
    let line = u32::from(version);
    let (form, rest) = form_due(rest, line + 1, FORM)?;
    let (limit, rest) = limit_due(rest, line + 2, LIMIT)?;
    let (policy, rest) = line_due(rest, line + 3, POLICY)?;
    Ok(Front {
        version,
        profile,
        form,
        limit,
        policy,
        rest,
    })
}
