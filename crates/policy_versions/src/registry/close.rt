//! Closing a registry.
ghost use Rattle.std.specs.Prelude.{◌≡◌, ℕ, slice_get, Some};
ghost use Rattle.policy_versions.specs.Rule.{IsAmong, version_of, which_of};
ghost use Rattle.policy_versions.specs.Models.{PassModel, IsClosed, IsRow};

use super::{Published, Publisher, Registry, VersionPass};
use crate::view::{CurrentWord, Declared, ReturnUser, View};
use atomic_table::{Seat, Table};
use shfl_policy::Policy;
use std::alloc::Global;

/// Each pass is given back to the publisher.
fn gather(
    table: &Table<(), View, Declared, CurrentWord, Global>,
    seat: &mut Seat<(), View>,
    passes: Vec<VersionPass>,
)
    requires table { seat.old.table_id ≡ table.now.shared.table_id }
    requires word { table.now.shared.table_id.words ≡ 1 }
    requires passes { (i : ℕ) (p : PassModel) → slice_get passes.items i ≡ Some p
        → p.registry.table ≡ table.now.shared.table_id }
    ensures table { seat.new.table_id ≡ seat.old.table_id }
    ensures publisher { seat.new.me.0.publisher ≡ seat.old.me.0.publisher }
    ensures words { seat.new.me.0.words ≡ seat.old.me.0.words }
    ensures values { seat.new.me.1 ≡ seat.old.me.1 }
    ensures seen { (i : ℕ) (p : PassModel) (k : ℕ) → slice_get passes.items i ≡ Some p
        → IsAmong k p.seen → IsAmong k seat.new.me.0.seen }
{
    for pass in passes {
        let VersionPass {
            user: _,
            is_open: _,
            log: _,
            seat: other,
        } = pass;
        table.shared.join_seat::<ReturnUser>(seat, other);
    }
}

impl Registry {
    /// The declared policies, and the publications in order. Each word that a pass has loaded is version 0's or a row's.
    pub fn close(self, publisher: Publisher, passes: Vec<VersionPass>) -> (Vec<Policy>, Published)
        requires publisher { publisher.registry ≡ self }
        requires passes { (i : ℕ) (p : PassModel) → slice_get passes.items i ≡ Some p
            → IsClosed self p }
        ensures declared { result.0.items ≡ self.declared }
        ensures rows { result.1 ≡ publisher.rows }
        ensures loaded { (i : ℕ) (p : PassModel) (k : ℕ) → slice_get passes.items i ≡ Some p
            → IsAmong k p.seen → IsRow publisher.rows (version_of k) (which_of k) }
    {
        let Registry {
            declared,
            places,
            table,
        } = self;
        drop(places);
        let Publisher { rows, mut seat } = publisher;
        gather(&table, &mut seat, passes);
        let closed = table.close_with(seat);
        closed.free();
        (declared, Published { rows })
    }
}

impl Published {
    /// Each version with the place of its policy, in order.
    pub fn rows(&self) -> &[(u64, u32)]
        ensures { result.now ≡ self.now }
    {
        self.rows.as_slice()
    }
}
