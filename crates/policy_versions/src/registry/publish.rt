//! Publishing.
ghost use Rattle.std.specs.Prelude.{◌≡◌, ◌+◌, ◌<◌, ◌%◌, length, Some, IfOk, OnOk, OnErr, IfErr, IsSomeAnd};
ghost use Rattle.policy_versions.specs.Places.{registry_of};
ghost use Rattle.policy_versions.specs.Models.{IsOf, with_row, next_version};
ghost use Rattle.policy_versions.specs.Turning.{Rose, IsLost};

use super::{InUse, PLACES, Publisher, Registry, WHICH};
use crate::instance::Instance;
use crate::place::{Right, fill};
use crate::turns::{Lost, SlotTurns, Turns};
use crate::view::Raise;
use std::sync::Wait;
use std::thread;

impl Publisher {
    /// Fills the place of the next version, raises the current word, and notes the row.
    fn replace(&mut self, registry: &Registry, right: Right<'_>, instance: Instance) -> u64
        requires registry { self.old.registry ≡ registry.now }
        requires room { length self.old.rows < 4096 }
        requires instance { IsOf registry.now instance }
        requires right { IsSomeAnd right.claim (λ c. (registry_of c.tag ≡ registry.now)
            × (c.tag.index ≡ next_version self.old % 8)) }
        ensures version { result ≡ next_version self.old }
        ensures row { self.new ≡ with_row self.old result instance.which }
    {
        let version = self.rows.len() as u64 + 1;
        let which = instance.which;
        fill(right, instance);
        let word = version + WHICH * which as u64;
        registry
            .table
            .shared
            .store::<Raise>(&mut self.seat, 0, word);
        self.rows.push_reserved((version, which));
        version
    }

    /// Publishes with one turn and without waiting. A refusal changes nothing, and gives the instance back.
    pub fn try_publish<T: Turns>(
        &mut self,
        registry: &Registry,
        turns: &mut T,
        instance: Instance,
    ) -> Result<u64, InUse>
        requires registry { self.old.registry ≡ registry.now }
        requires room { length self.old.rows < 4096 }
        requires instance { IsOf registry.now instance }
        ensures version { IfOk result (λ version. version ≡ next_version self.old) }
        ensures row { IfOk result (λ version. self.new ≡ with_row self.old version instance.which) }
        ensures won { OnOk result (Rose (T.won turns.old) (T.won turns.new)) }
        ensures none_lost { OnOk result (T.lost turns.new ≡ T.lost turns.old) }
        ensures lost { OnErr result (Rose (T.lost turns.old) (T.lost turns.new)) }
        ensures none_won { OnErr result (T.won turns.new ≡ T.won turns.old) }
        ensures in_use { IfErr result (λ e. IsLost e.loaded e.word) }
        ensures words { IfErr result (λ e. IsSomeAnd (T.last_lost turns.new)
            (λ l. (l.loaded ≡ e.loaded) × (l.word ≡ e.word))) }
        ensures publisher { OnErr result (self.new ≡ self.old) }
        ensures instance { IfErr result (λ e. e.instance ≡ instance) }
    {
        let version = self.rows.len() as u64 + 1;
        let place = &registry.places[(version % PLACES) as usize];
        let mut right = Right::none();
        match turns.turn(place, &mut right) {
            Ok(()) => Ok(self.replace(registry, right, instance)),
            Err(Lost { loaded, word }) => {
                right.done();
                Err(InUse {
                    loaded,
                    word,
                    instance,
                })
            }
        }
    }

    /// Publishes the instance as the next version, and waits until nobody uses the version that stands in its place. That one's
    /// instance is dropped.
    pub fn publish<R: Wait>(&mut self, rt: &R, registry: &Registry, instance: Instance) -> u64
        requires registry { self.old.registry ≡ registry.now }
        requires room { length self.old.rows < 4096 }
        requires instance { IsOf registry.now instance }
        ensures version { result ≡ next_version self.old }
        ensures row { self.new ≡ with_row self.old result instance.which }
    {
        let mut turns = SlotTurns::new();
        let mut instance = instance;
        for _ in rt.forever() {
            match self.try_publish(registry, &mut turns, instance) {
                Ok(version) => return version,
                Err(refused) => instance = refused.instance,
            }
            thread::yield_now();
        }
        unreachable!()
    }
}
