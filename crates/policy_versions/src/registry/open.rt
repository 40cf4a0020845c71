//! Opening a registry.
ghost use Rattle.std.specs.Prelude.{◌≡◌, ℕ, ◌<◌, ◌≤◌, [], length, vec_len, slice_get, Some, IfOk};
ghost use Rattle.policy_versions.specs.Rule.{first_view};
ghost use Rattle.policy_versions.specs.Places.{registry_at};
ghost use Rattle.policy_versions.specs.Models.{AreFresh, ArePlaces, IsOf, most_users};

use super::{PLACES, Publisher, ROWS, Registry, VersionPass};
use crate::instance::Instance;
use crate::place::{Place, PlaceId, Right, fill};
use crate::turns::{SlotTurns, Turns};
use crate::view::{CurrentWord, Declared, NextUser, View};
use atomic_table::{Seat, Table};
use round_log::RoundLog;
use shfl_line::NoMemory;
use shfl_policy::Policy;
use std::alloc::Global;
use std::snapshot::Snapshot;

/// The eight places, of which none is filled.
fn places(
    alloc: Global,
    table: &Table<(), View, Declared, CurrentWord, Global>,
) -> Result<Vec<Place>, NoMemory>
    ensures { let s = table.now.shared in
        IfOk result (λ v. (vec_len v ≡ 8)
        × ArePlaces (registry_at s.table_id s.key.policies.value.items) v.items) }
{
    let mut places = Vec::with_capacity(alloc, PLACES as usize)?;
    for index in 0..PLACES as u32 {
        let id = PlaceId {
            origin: Snapshot::of(&table.shared),
            index,
        };
        places.push_reserved(Place::new(&id));
    }
    Ok(places)
}

/// A pass for each user.
fn passes(
    alloc: Global,
    table: &Table<(), View, Declared, CurrentWord, Global>,
    seat: &mut Seat<(), View>,
    users: u32,
) -> Result<Vec<VersionPass>, NoMemory>
    requires table { seat.old.table_id ≡ table.now.shared.table_id }
    requires word { table.now.shared.table_id.words ≡ 1 }
    requires view { seat.old.me ≡ (first_view table.now.shared.key.policies.value.items, []) }
    ensures same { (seat.new.table_id ≡ seat.old.table_id) × (seat.new.me ≡ seat.old.me) }
    ensures count { IfOk result (λ v. vec_len v ≡ users) }
    ensures fresh { let s = table.now.shared in
        IfOk result (λ v.
        AreFresh (registry_at s.table_id s.key.policies.value.items) users v.items) }
{
    let mut passes = Vec::with_capacity(alloc, users as usize)?;
    for user in 0..users {
        let next = table.shared.split_seat::<NextUser>(seat);
        passes.push_reserved(VersionPass {
            user,
            is_open: false,
            log: RoundLog::new(alloc, false),
            seat: next,
        });
    }
    Ok(passes)
}

impl Registry {
    /// Version 0 is a copy of the first policy. Nobody else has a place yet, so the turn isn't lost.
    fn begin(&self, alloc: Global) -> Result<(), NoMemory>
        requires { 0 < length self.now.declared }
    {
        let instance = self.instance(alloc, 0)?;
        let mut right = Right::none();
        match SlotTurns::new().turn(&self.places[0], &mut right) {
            Ok(()) => {
                fill(right, instance);
                Ok(())
            }
            Err(_) => {
                right.done();
                Err(NoMemory)
            }
        }
    }

    /// A registry of 1 to 64 declared policies, the one publisher, and a pass for each of 1 to 65,535 users. Version 0 is a copy of the
    /// first policy. The room for 4,096 publications is taken here. No pass keeps a log yet.
    pub fn open(
        alloc: Global,
        declared: Vec<Policy>,
        users: u32,
    ) -> Result<(Registry, Publisher, Vec<VersionPass>), NoMemory>
        requires policies { (0 < vec_len declared) × (vec_len declared ≤ 64) }
        requires users { (0 < users) × (users ≤ most_users) }
        ensures declared { IfOk result (λ r. r.0.declared ≡ declared.items) }
        ensures publisher { IfOk result (λ r. r.1 ≡ record { registry = r.0; rows = [] }) }
        ensures users { IfOk result (λ r. vec_len r.2 ≡ users) }
        ensures passes { IfOk result (λ r. AreFresh r.0 users r.2.items) }
    {
        let rows = Vec::with_capacity(alloc, ROWS)?;
        let fixed = Declared {
            policies: Snapshot::of(&declared),
        };
        let (table, mut seat) = Table::of_words(alloc, &[0], &fixed)?;
        let users = passes(alloc, &table, &mut seat, users)?;
        let places = places(alloc, &table)?;
        let registry = Registry {
            declared,
            places,
            table,
        };
        registry.begin(alloc)?;
        let publisher = Publisher { rows, seat };
        Ok((registry, publisher, users))
    }

    /// A copy of a declared policy.
    pub fn instance(&self, alloc: Global, which: u32) -> Result<Instance, NoMemory>
        requires { which < length self.now.declared }
        ensures which { IfOk result (λ x. x.which ≡ which) }
        ensures copy { IfOk result (IsOf self.now) }
    {
        let policy = self.declared[which as usize].copy(alloc)?;
        Ok(Instance { which, policy })
    }
}
