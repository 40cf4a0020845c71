//! A journal of numbers, and a pass that adds to it.
ghost use Rattle.std.specs.Prelude.{◌≡◌, ◌≤◌, [], IfOk, false, length, vec_len, vec_capacity, slice_get, Some};
ghost use Rattle.shared_journal.specs.Models.{fresh_pass};

use crate::checks::{holds, is_told, same};
use shared_journal::{Closing, Committed, Journal, JournalPass, JournalTable, NoMemory, Step};
use std::alloc::Global;

/// A number with the pass that wrote it.
#[derive(Clone, Copy, Debug, PartialEq, Eq, Drop)]
struct Line {
    worker: u32,
    text: u32,
}

/// Numbers that were written, with room for so many.
#[derive(Drop)]
struct Lines {
    lines: Vec<Line>,
    limit: u32,
    ghost room: { limit ≤ vec_capacity lines },
}

impl Journal for Lines {
    ghost use Rattle.std.specs.Prelude.{[]};

    type Entry = Line;

    ghost entries = { λ j. j.lines.items };

    ghost limit = { λ j. j.limit };

    ghost opening = { λ _. [] };

    ghost legal = { λ _ _. Unit {0} };

    ghost worker = { λ e. e.worker };

    fn len(&self) -> u64 {
        self.lines.len() as u64
    }
}

/// Writes a number.
#[derive(Drop)]
struct Write {
    text: u32,
}

impl Step<Lines> for Write {
    ghost use Rattle.std.specs.Prelude.{◌≡◌, ◌<◌, length};

    type Answer = usize;

    ghost ready = { λ _ _ j. length j.lines.items < j.limit };

    ghost done = { λ _ _ j answer _. answer ≡ length j.lines.items };

    fn run(self, number: u32, journal: &mut Lines) -> usize {
        let place = journal.lines.len();
        journal.lines.push_reserved(Line {
            worker: number,
            text: self.text,
        });
        place
    }
}

fn empty_lines(alloc: Global, limit: u32) -> Result<Lines, NoMemory>
    ensures { IfOk result (λ j. (j.lines.items ≡ []) × (j.limit ≡ limit)) }
{
    let lines = Vec::with_capacity(alloc, limit as usize)?;
    Ok(Lines { lines, limit })
}

/// The only pass.
fn only(table: &JournalTable<Lines>, mut passes: Vec<JournalPass<Lines>>) -> JournalPass<Lines>
    requires one { vec_len passes ≡ 1 }
    requires fresh { slice_get passes.items 0 ≡ Some (fresh_pass table.now.id [] 4 0 4) }
    ensures { result ≡ fresh_pass table.now.id [] 4 0 4 }
{
    let _ = table;
    let Some(pass) = passes.pop() else {
        unreachable!()
    };
    pass
}

/// The journal, where there is one pass.
fn closed(table: JournalTable<Lines>, pass: JournalPass<Lines>) -> Lines
    requires one { length table.allowed ≡ 1 }
    requires table { pass.table ≡ table.id }
    requires number { pass.number ≡ 0 }
    requires home { pass.is_out ≡ false }
{
    Closing::new(table, pass).finish()
}

const WRITTEN: [Line; 2] = [Line { worker: 0, text: 7 }, Line { worker: 0, text: 8 }];

#[test]
fn a_commit_adds_an_entry_at_the_place_it_answers(rt: HostRuntime) {
    let alloc = rt.alloc();
    let lines = empty_lines(alloc, 4).ok().expect(&rt, "memory");
    let opened = JournalTable::open(alloc, lines, &[4]).ok();
    let (table, passes, mut empty) = opened.expect(&rt, "a journal");
    let mut pass = only(&table, passes);
    let known = empty.split(&table);
    let Committed {
        answer,
        place,
        first,
        second: _,
    } = pass.commit(&rt, &table, known, None, Write { text: 7 });
    same(&rt, &(answer, place), &(0, 0));
    let Committed {
        answer,
        place,
        first: _,
        second,
    } = pass.commit(&rt, &table, first, Some(empty), Write { text: 8 });
    same(&rt, &(answer, place), &(1, 1));
    holds(&rt, second.is_some());
    same(&rt, &(pass.number(), pass.left()), &(0, 2));
    let journal = closed(table, pass);
    same(&rt, &journal.lines.as_slice(), &WRITTEN.as_slice());
}

#[test]
fn want_of_memory_is_told(rt: HostRuntime) {
    is_told(&rt, rt.alloc(), &NoMemory, "out of memory");
}
