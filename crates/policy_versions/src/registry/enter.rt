//! Users: entering, using and leaving a version.
ghost use Rattle.std.specs.Prelude.{◌≡◌, ℕ, ◌+◌, ◌<◌, ◌≤◌, ◌%◌, true, false, slice_get, Some, None, IfSome};
ghost use Rattle.policy_versions.specs.Rule.{IsAmong, version_of, which_of, word_of};
ghost use Rattle.policy_versions.specs.Models.{IsClosed, IsNewest, IsVersion, LoadedLast, Tries};

use super::{PLACES, Registry, Using, VersionPass, WHICH};
use crate::view::Load;
use shfl_policy::Policy;
use std::sync::Wait;
use std::thread;

impl VersionPass {
    /// One load of the current word, and one try at its place.
    fn try_enter<'r>(&mut self, registry: &'r Registry) -> Option<Using<'r>>
        requires registry { self.old.registry.table ≡ registry.now.table }
        requires closed { self.old.is_open ≡ false }
        ensures same { (self.new.registry ≡ self.old.registry) × (self.new.user ≡ self.old.user) }
        ensures log { self.new.log ≡ self.old.log }
        ensures tries { Tries self.old self.new result }
        ensures none { result ≡ None → self.new.is_open ≡ false }
        ensures open { IfSome result (λ _. self.new.is_open ≡ true) }
        ensures names { IfSome result (λ u. (u.registry ≡ registry.now)
            × (u.user ≡ self.old.user)) }
    {
        let word = registry.table.shared.load::<Load>(&mut self.seat, 0);
        let version = word % WHICH;
        let which = word / WHICH;
        let Ok(reading) = registry.places[(version % PLACES) as usize].read() else {
            return None;
        };
        if !reading.shows(which as u32) {
            reading.leave();
            return None;
        }
        self.is_open = true;
        Some(Using {
            user: self.user,
            version,
            which: which as u32,
            reading,
        })
    }

    /// Holds the policy that was current at the last load of this call. It tries again while the place of the version that it
    /// loaded shows another instance, or can't be had.
    pub fn enter<'r, R: Wait>(&mut self, rt: &R, registry: &'r Registry) -> Using<'r>
        requires { IsClosed registry.now self.old }
        ensures same { (self.new.registry ≡ self.old.registry) × (self.new.user ≡ self.old.user) }
        ensures log { self.new.log ≡ self.old.log }
        ensures open { self.new.is_open ≡ true }
        ensures current { LoadedLast self.old.seen self.new.seen
            (word_of result.version result.which) }
        ensures version { IsVersion result.version }
        ensures newest { IsNewest self.old.seen result.version }
        ensures newest_so_far { IsNewest self.new.seen result.version }
        ensures of_registry { result.registry ≡ registry.now }
        ensures of_user { result.user ≡ self.old.user }
    {
        for _ in rt.forever() {
            if let Some(using) = self.try_enter(registry) {
                return using;
            }
            thread::yield_now();
        }
        unreachable!()
    }

    /// Ends the use.
    pub fn leave(&mut self, registry: &Registry, held: Using<'_>)
        requires registry { self.old.registry.table ≡ registry.now.table }
        requires held { held.registry ≡ registry.now }
        requires pass { (self.old.is_open ≡ true) × (held.user ≡ self.old.user) }
        ensures { self.new ≡ record self.old { is_open = false } }
    {
        let _ = registry;
        let Using {
            user: _,
            version: _,
            which: _,
            reading,
        } = held;
        reading.leave();
        self.is_open = false;
    }
}

impl<'r> Using<'r> {
    pub fn version(&self) -> u64
        ensures { result ≡ self.now.version }
    {
        self.version
    }

    /// The place of its policy among the declared ones.
    pub fn which(&self) -> u32
        ensures { result ≡ self.now.which }
    {
        self.which
    }

    /// The policy that stands in the place that this use holds. It equals the declared one.
    pub fn policy<'a>(&'a self, registry: &'a Registry) -> &'a Policy
        requires { self.now.registry ≡ registry.now }
        ensures { slice_get registry.now.declared self.now.which ≡ Some result.now }
    {
        let _ = registry;
        match self.reading.shown() {
            Some(instance) => &instance.policy,
            None => unreachable!(),
        }
    }
}
