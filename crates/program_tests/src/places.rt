//! What a try to read a place finds.
use crate::checks::{holds, same};
use crate::versions::opened;
use policy_versions::{Lost, Place, Right, SlotTurns, Turns};

/// The word that was loaded, and the one that an exchange found.
type Words = Option<(u64, u64)>;

/// Turns as they are, and what a try to read the place tells before a turn and after it.
#[derive(Drop)]
struct Looking {
    turns: SlotTurns,
    before: Words,
    after: Words,
}

/// The words of a try to read the place; none where an instance stands there.
fn unread(place: &Place) -> Words {
    match place.read() {
        Ok(reading) => {
            reading.leave();
            None
        }
        Err(unread) => Some((unread.loaded, unread.word)),
    }
}

impl Turns for Looking {
    ghost won = { λ t. t.turns.won };

    ghost lost = { λ t. t.turns.lost };

    ghost last_lost = { λ t. t.turns.last_lost };

    fn turn<'a>(&mut self, place: &'a Place, right: &mut Right<'a>) -> Result<(), Lost> {
        self.before = unread(place);
        let turned = self.turns.turn(place, right);
        self.after = unread(place);
        turned
    }
}

// The place is empty, and then taken by the one that publishes.
#[test]
fn a_place_that_shows_nothing_is_told_with_its_word(rt: HostRuntime) {
    let alloc = rt.alloc();
    let (registry, mut publisher, _passes) = opened(&rt, alloc, 1, 1);
    let mut looking = Looking {
        turns: SlotTurns::new(),
        before: None,
        after: None,
    };
    let instance = registry.instance(alloc, 0).expect(&rt, "memory");
    let published = publisher.try_publish(&registry, &mut looking, instance);
    holds(&rt, published.is_ok());
    same(&rt, &looking.before, &Some((0, 0)));
    same(&rt, &looking.after, &Some((3, 3)));
}
