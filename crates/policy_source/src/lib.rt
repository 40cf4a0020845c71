//! What a policy is made of: the bytes of its two programs, as a document or a caller gives them.
#![tactic(auto)]

ghost use Rattle.std.specs.Prelude.{◌≡◌};

use std::marker::Model;

/// The bytes of a policy's programs, in the encoding of RFC 9669. A missing program answers no.
#[derive(Drop)]
pub struct PolicySource {
    /// Whether a waiter should join the batch.
    pub should: Option<Vec<u8>>,
    /// Whether to skip a round.
    pub skip: Option<Vec<u8>>,
}

impl Model for PolicySource {
    ghost use Rattle.std.specs.Prelude.{option_map};
    ghost use Rattle.policy_source.specs.Source.{SourceModel};

    ghost Value = { SourceModel };

    ghost view = { λ s. record {
      should = option_map (λ v. v.items) s.should;
      skip = option_map (λ v. v.items) s.skip;
    } };
}
