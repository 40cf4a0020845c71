//! The policy of a ticket: attached from bytes, and asked.
ghost use Rattle.std.specs.Prelude.{◌≡◌, IfOk, IfErr, Some, option_map};
ghost use Rattle.shfl_core.specs.Waiting as waiting;
ghost use Rattle.shfl_policy.specs.declared.error.LoadError.TheVariants.{NoMemory};
ghost use Rattle.shfl_policy.specs.Loading.{IsLoaded, IsLoadError};
ghost use Rattle.shfl_ticket.specs.Tickets.{answer_to};
ghost use Rattle.shfl_ticket.specs.Attached.{Attaches, given, source_of};

use crate::boxes::shared;
use crate::ticket::{Share, Ticket};
use bpf_isa::Profile;
use policy_source::PolicySource;
use shfl_core::Ask;
use shfl_line::{Attr, Chooser};
use shfl_policy::{LoadError, Policy, load};
use std::alloc::Global;
use std::sync::Arc;

// The bytes of a program; where there are none, there is no program.
fn bytes_of(alloc: Global, bytes: &[u8]) -> Result<Option<Vec<u8>>, LoadError>
    ensures given { IfOk result (λ v. option_map (λ b. b.items) v ≡ given bytes.now) }
    ensures no_memory { IfErr result (λ e. e ≡ NoMemory) }
{
    if bytes.is_empty() {
        return Ok(None);
    }
    match Vec::from_slice(alloc, bytes) {
        Ok(bytes) => Ok(Some(bytes)),
        Err(_) => Err(LoadError::NoMemory),
    }
}

/// What a policy answers to a question of a pass with these attributes.
pub fn answer_of(policy: &Policy, anchor: &Attr, question: Ask) -> bool
    ensures { result ≡ answer_to (Some policy.now) anchor.now question }
{
    let mut running = policy.running();
    match question {
        Ask::Nothing => false,
        Ask::Skip { batch } => running.skip(anchor, batch),
        Ask::Should { waiter, batch } => running.should(anchor, &waiter, batch),
    }
}

/// The policy of these programs, under the name 0; no bytes are no program.
pub fn loaded(
    alloc: Global,
    profile: Profile,
    should: &[u8],
    skip: &[u8],
) -> Result<Policy, LoadError>
    ensures loaded { IfOk result (IsLoaded 0 profile (source_of should.now skip.now)) }
    ensures bad { IfErr result (IsLoadError profile (source_of should.now skip.now)) }
{
    let should = bytes_of(alloc, should)?;
    let skip = bytes_of(alloc, skip)?;
    load(alloc, 0, profile, &PolicySource { should, skip })
}

// The same lock with this policy.
fn with_policy(
    alloc: Global,
    share: &Share,
    policy: Option<Policy>,
) -> Result<Arc<Share, Global>, shfl_line::NoMemory>
    ensures board { IfOk result (λ s. s.value.board.value ≡ share.now.board.value) }
    ensures words { IfOk result (λ s. s.value.words.value ≡ share.now.words.value) }
    ensures policy { IfOk result (λ s. s.value.policy ≡ policy) }
{
    let board = Arc::try_clone(&share.board)?;
    let words = Arc::try_clone(&share.words)?;
    shared(
        alloc,
        Share {
            board,
            words,
            policy,
        },
    )
}

impl Ticket {
    /// Attaches the policy of these programs in place of the one before; where there are no bytes, that program answers no. A
    /// program that is refused changes nothing. This takes memory, and may come at any time, also while the pass waits.
    pub fn attach(
        &mut self,
        alloc: Global,
        profile: Profile,
        should: &[u8],
        skip: &[u8],
    ) -> Result<(), LoadError>
        ensures ok { IfOk result (λ _.
            Attaches profile (source_of should.now skip.now) self.old self.new) }
        ensures err { IfErr result (IsLoadError profile (source_of should.now skip.now)) }
        ensures unchanged { IfErr result (λ _. self.new ≡ self.old) }
    {
        let policy = loaded(alloc, profile, should, skip)?;
        match with_policy(alloc, &self.share, Some(policy)) {
            Ok(share) => {
                self.share = share;
                Ok(())
            }
            Err(_) => Err(LoadError::NoMemory),
        }
    }

    /// What the attached policy answers to what the next step asks; no, where nothing is asked or no policy is attached.
    pub fn answer(&self) -> bool
        ensures { result ≡ answer_to self.now.policy self.now.attr
            (waiting.ask self.now.board.rules self.now.own) }
    {
        match &self.share.policy {
            None => false,
            Some(policy) => answer_of(policy, &self.attr(), self.pass.ask()),
        }
    }
}
