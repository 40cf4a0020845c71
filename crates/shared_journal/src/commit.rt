//! A commit: the journal goes out, and comes back with one entry more.
ghost use Rattle.std.specs.Prelude.{◌≡◌, ℕ, ◌<◌, ◌++◌, [], ◌∷◌, false, None, Some, IfSome, length};
ghost use Rattle.shared_journal.specs.Models.{CommitsEntry, MayTake};

use crate::journal::Journal;
use crate::passes::{JournalPass, KnownPrefix};
use crate::table::JournalTable;
use std::sync::Wait;

/// What a caller does with the journal while it has it out.
pub trait Step<J: Journal> {
    ghost use Rattle.std.specs.Prelude.{ℕ};

    type Answer;

    /// The pass of this number may do it on this journal.
    ghost ready: { Self → ℕ → J → Type 0 };

    /// The pass of this number did it on the first journal, which it left as the second, and had this answer.
    ghost done: { Self → ℕ → J → Self.Answer → J → Type 0 };

    /// Adds one entry of the pass's number. Takes no memory.
    fn run(self, number: u32, journal: &mut J) -> Self::Answer
        requires { ready self number journal.old }
        ensures done { done self number journal.old result journal.new }
        ensures adds { (e : J.Entry) × (J.entries journal.new ≡ J.entries journal.old ++ e ∷ [])
            × (J.worker e ≡ number) }
        ensures opening { J.opening journal.new ≡ J.opening journal.old }
        ensures limit { J.limit journal.new ≡ J.limit journal.old }
        ensures legal { J.legal (J.opening journal.new) (J.entries journal.new) };
}

/// What a commit gives back.
pub struct Committed<J: Journal, A> {
    pub answer: A,
    /// The place of the entry in the journal.
    pub place: u64,
    pub first: KnownPrefix<J>,
    pub second: Option<KnownPrefix<J>>,
}

impl<J: Journal + Drop> JournalPass<J> {
    /// Joins what one or two others know, takes the journal out, waiting while it is out, does the step on it, which adds an entry,
    /// and puts it back. The others then know the journal with that entry. Takes no memory.
    pub fn commit<R: Wait, S: Step<J>>(
        &mut self,
        rt: &R,
        table: &JournalTable<J>,
        first: KnownPrefix<J>,
        second: Option<KnownPrefix<J>>,
        step: S,
    ) -> Committed<J, S::Answer>
        requires table { self.old.table ≡ table.now.id }
        requires prefixes { (first.table ≡ table.now.id)
            × IfSome second (λ p. p.table ≡ table.now.id) }
        requires home { self.old.is_out ≡ false }
        requires left { 0 < self.old.left }
        requires ready { (j : J) → MayTake J.entries J.limit J.opening J.legal J.worker
            self.old first second j → S.ready step self.old.number j }

        // What the pass has seen goes on to its one new entry.
        ensures pass { CommitsEntry J.worker self.old result.place self.new }
        ensures legal { J.legal self.old.opening self.new.seen }
        ensures first { result.first ≡ record first { list = self.new.seen } }
        ensures none { second ≡ None → result.second ≡ None }
        ensures second { IfSome second (λ p.
            result.second ≡ Some (record p { list = self.new.seen })) }

        // The answer is the step's, on the journal before the entry.
        ensures answer { (j : J) × (k : J) × (length (J.entries j) ≡ result.place)
            × (J.entries k ≡ self.new.seen) × S.done step self.old.number j result.answer k }
    {
        let two = second.is_some();
        let mut journal = self.begin(rt, table, first, second);
        let place = journal.len();
        let answer = step.run(self.number, &mut journal);
        self.end(table, journal);
        let first = self.split(table);
        if two {
            let second = Some(self.split(table));
            return Committed {
                answer,
                place,
                first,
                second,
            };
        }
        Committed {
            answer,
            place,
            first,
            second: None,
        }
    }
}
