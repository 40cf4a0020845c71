//! Turns: one try to gain the right to fill a place.
ghost use Rattle.std.specs.Prelude.{◌≡◌, OnOk, OnErr, IfErr, IsSomeAnd, Some, None, Err};
ghost use Rattle.policy_versions.specs.Turning.{Rose, IsLost, no_turn};

use crate::place::{Place, Right};
use counted_slot::TAKEN;
use std::marker::Model;

/// A turn that was lost: the word that was loaded, and the word that the exchange found, or the same where none was tried.
#[derive(Clone, Copy, Debug, PartialEq, Eq)]
pub struct Lost {
    pub loaded: u64,
    pub word: u64,
}

/// Whoever tries to gain the right to fill a place.
pub trait Turns {
    ghost use Rattle.std.specs.Prelude.{ℕ, Option};
    ghost use Rattle.policy_versions.specs.declared.turns.Lost.{Lost};

    /// How many turns were won. It never falls.
    ghost won: { Self → ℕ };

    /// How many turns were lost. It never falls.
    ghost lost: { Self → ℕ };

    /// The last turn that was lost.
    ghost last_lost: { Self → Option Lost };

    /// Tries once. A lost turn leaves the right empty.
    fn turn<'a>(&mut self, place: &'a Place, right: &mut Right<'a>) -> Result<(), Lost>
        requires { right.old.claim ≡ None }
        ensures won { OnOk result (Rose (won self.old) (won self.new)) }
        ensures none_lost { OnOk result (lost self.new ≡ lost self.old) }
        ensures gained { OnOk result (IsSomeAnd right.new.claim (λ c. c.tag ≡ place.now.counted)) }
        ensures lost { OnErr result (Rose (lost self.old) (lost self.new)) }
        ensures none_won { OnErr result (won self.new ≡ won self.old) }
        ensures empty { OnErr result (right.new.claim ≡ None) }
        ensures cause { IfErr result (λ l. IsLost l.loaded l.word) }
        ensures told { IfErr result (λ l. last_lost self.new ≡ Some l) };
}

/// One load, and one compare and exchange where it found no reader and no writer.
#[derive(Drop)]
pub struct SlotTurns {
    won: u64,
    lost: u64,
    last_lost: Option<Lost>,
}

impl Model for SlotTurns {
    ghost use Rattle.policy_versions.specs.Turning.{TurnsModel};

    ghost Value = { TurnsModel };

    ghost view = { λ t. record { won = t.won; lost = t.lost; last_lost = t.last_lost } };
}

impl SlotTurns {
    /// Who has tried no turn yet.
    pub fn new() -> SlotTurns
        ensures { result ≡ no_turn }
    {
        SlotTurns {
            won: 0,
            lost: 0,
            last_lost: None,
        }
    }

    // Notes a turn that was lost.
    fn lose(&mut self, lost: Lost) -> Result<(), Lost>
        ensures error { result ≡ Err lost }
        ensures rose { Rose self.old.lost self.new.lost }
        ensures told { self.new.last_lost ≡ Some lost }
        ensures won { self.new.won ≡ self.old.won }
    {
        self.lost = self.lost.saturating_add(1);
        self.last_lost = Some(lost);
        Err(lost)
    }
}

impl Turns for SlotTurns {
    ghost won = { λ t. t.won };

    ghost lost = { λ t. t.lost };

    ghost last_lost = { λ t. t.last_lost };

    fn turn<'a>(&mut self, place: &'a Place, right: &mut Right<'a>) -> Result<(), Lost> {
        let loaded = place.counted.load();
        if loaded % 4 == TAKEN || loaded % 0x1_0000_0000 / 4 > 0 {
            return self.lose(Lost {
                loaded,
                word: loaded,
            });
        }
        let (word, claim) = place.counted.turn(loaded, TAKEN);
        if word != loaded {
            claim.done();
            return self.lose(Lost { loaded, word });
        }
        let old = right.claim.replace(claim);
        let None = old else { unreachable!() };
        self.won = self.won.saturating_add(1);
        Ok(())
    }
}
