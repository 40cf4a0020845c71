//! The registry, its publisher, its users' passes and their uses.
mod close;
mod enter;
mod logging;
mod open;
mod publish;

use crate::instance::Instance;
use crate::place::{Place, Reading};
use crate::view::{CurrentWord, Declared, View};
use atomic_table::{Seat, Table};
use round_log::RoundLog;
use shfl_policy::Policy;
use std::alloc::Global;
use std::fmt;
use std::marker::Model;

/// How many places there are. Version v stands in place v modulo 8.
const PLACES: u64 = 8;

/// How many publications there may be.
const ROWS: usize = 4096;

/// One policy in the high half of the current word.
const WHICH: u64 = 0x1_0000_0000;

/// The declared policies, the places, and the current word.
#[derive(Drop)]
pub struct Registry {
    declared: Vec<Policy>,
    places: Vec<Place>,
    table: Table<(), View, Declared, CurrentWord, Global>,
}

impl Model for Registry {
    ghost use Rattle.std.specs.Prelude.{◌≡◌, vec_len};
    ghost use Rattle.policy_versions.specs.Places.{RegistryId, registry_at};
    ghost use Rattle.policy_versions.specs.Models.{ArePlaces};

    ghost Value = { RegistryId };

    ghost view = { λ r. registry_at r.table.shared.table_id
        r.table.shared.key.policies.value.items };

    ghost invariant = { λ r. (r.table.shared.key.policies.value.items ≡ r.declared.items)
        × (r.table.shared.table_id.words ≡ 1)
        × (r.table.shared.table_id.slots ≡ 0) × (vec_len r.places ≡ 8)
        × ArePlaces (registry_at r.table.shared.table_id r.table.shared.key.policies.value.items)
        r.places.items };
}

/// Who alone may publish.
#[derive(Drop)]
pub struct Publisher {
    rows: Vec<(u64, u32)>,
    seat: Seat<(), View>,
}

impl Model for Publisher {
    ghost use Rattle.std.specs.Prelude.{◌≡◌, ◌≤◌, true, false, [], vec_len, vec_capacity};
    ghost use Rattle.policy_versions.specs.Places.{registry_at};
    ghost use Rattle.policy_versions.specs.Models.{PublisherModel, AreRows, words_of};

    ghost Value = { PublisherModel };

    ghost view = { λ p. record {
      registry = registry_at p.seat.table_id p.seat.me.0.declared;
      rows = p.rows.items;
    } };

    ghost invariant = { λ p. (p.seat.me.0.publisher ≡ true) × (p.seat.me.0.spent ≡ false)
        × (p.seat.me.1 ≡ [])
        × (p.seat.me.0.words ≡ words_of p.rows.items) × AreRows p.rows.items
        × (vec_len p.rows ≤ 4096) × (4096 ≤ vec_capacity p.rows) };
}

/// A user's right to enter, and the log of what its policies are told. It crosses threads.
#[derive(Drop)]
pub struct VersionPass {
    user: u32,
    is_open: bool,
    log: RoundLog,
    seat: Seat<(), View>,
}

impl Model for VersionPass {
    ghost use Rattle.std.specs.Prelude.{◌≡◌, false, []};
    ghost use Rattle.policy_versions.specs.Places.{registry_at};
    ghost use Rattle.policy_versions.specs.Models.{PassModel};

    ghost Value = { PassModel };

    ghost view = { λ p. record {
      registry = registry_at p.seat.table_id p.seat.me.0.declared;
      user = p.user;
      seen = p.seat.me.0.seen;
      is_open = p.is_open;
      log = p.log;
    } };

    ghost invariant = { λ p. (p.seat.me.0.publisher ≡ false) × (p.seat.me.0.spent ≡ false)
        × (p.seat.me.1 ≡ []) };
}

/// A policy that is held while it is used: its place isn't filled before `leave`. It can't outlive its registry.
pub struct Using<'r> {
    user: u32,
    version: u64,
    which: u32,
    reading: Reading<'r>,
}

impl<'r> Model for Using<'r> {
    ghost use Rattle.std.specs.Prelude.{◌≡◌, ◌%◌, Some, slice_get};
    ghost use Rattle.policy_versions.specs.Places.{registry_of};
    ghost use Rattle.policy_versions.specs.Models.{UsingModel, IsVersion};
    ghost use Rattle.policy_versions.specs.declared.instance.Instance.{Instance};

    ghost Value = { UsingModel };

    ghost view = { λ u. record {
      registry = registry_of u.reading.claim.tag;
      user = u.user;
      version = u.version;
      which = u.which;
    } };

    ghost invariant = { λ u. IsVersion u.version × (u.reading.claim.tag.index ≡ u.version % 8)
        × ((x : Instance) × (u.reading.claim.value ≡ Some (Some x))
        × (slice_get (registry_of u.reading.claim.tag).declared u.which ≡ Some x.policy)) };
}

/// The publications, in order: each version, and the place of its policy among the declared ones. Only a closed registry gives it.
#[derive(Drop)]
pub struct Published {
    rows: Vec<(u64, u32)>,
}

impl Model for Published {
    ghost use Rattle.std.specs.Prelude.{ℕ, List};

    ghost Value = { List (ℕ × ℕ) };

    ghost view = { λ p. p.rows.items };
}

/// The place of the next version was not to be had: the words of the turn that was lost, and the instance.
#[derive(Drop)]
pub struct InUse {
    pub loaded: u64,
    pub word: u64,
    pub instance: Instance,
}

impl fmt::Display for InUse {
    fn fmt<W: fmt::Write>(&self, f: &mut fmt::Formatter<W>) -> fmt::Result {
        f.write_str("the place of the next version is in use")
    }
}
