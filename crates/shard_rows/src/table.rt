//! The numbers of one directory's files, by their names.
ghost use Rattle.std.specs.Prelude.{◌≡◌, ℕ, ◌+◌, ◌<◌, ◌≤◌, ◌++◌, max, [], length, slice_index, All, Option, IfOk, IfSome, IfNone};
ghost use Rattle.std.specs.Vec.{vec_capacity};
ghost use Rattle.shard_rows.specs.Tables.{Table, held, count_of, rows_of, IsSet};

use dir_table::{DirRow, NoMemory};
use std::alloc::Global;
use std::marker::Model;

/// A number for each name, or 0, in memory that is taken at the start.
#[derive(Drop)]
pub struct NumberTable {
    numbers: Vec<u64>,
    count: u32,
    room: u32,
}

impl Model for NumberTable {
    ghost use Rattle.std.specs.Vec.{vec_capacity};
    ghost use Rattle.shard_rows.specs.Tables.{Table, IsStored};

    ghost Value = { Table };

    ghost view = { λ t. record { numbers = t.numbers.items; room = t.room } };

    ghost invariant = { λ t. IsStored t.numbers.items t.count t.room (vec_capacity t.numbers) };
}

// 1 for the number of a file.
fn held(number: u64) -> u32
    ensures { result ≡ held number }
{
    u32::from(number != 0)
}

// Puts zeros behind the numbers, where the place is behind them.
fn reach(numbers: &mut Vec<u64>, place: usize)
    requires { place < vec_capacity numbers.old }
    ensures same { (other : ℕ)
        → slice_index numbers.new.items other ≡ slice_index numbers.old.items other }
    ensures count { count_of numbers.new.items ≡ count_of numbers.old.items }
    ensures len { length numbers.new.items ≡ max (length numbers.old.items) (place + 1) }
    ensures capacity { vec_capacity numbers.new ≡ vec_capacity numbers.old }
{
    for _ in numbers.len()..place + 1 {
        numbers.push_reserved(0);
    }
}

impl NumberTable {
    /// A table in which no name is there.
    pub fn open(alloc: Global, room: u32) -> Result<NumberTable, NoMemory>
        ensures { IfOk result (λ t. t ≡ record { numbers = []; room = room }) }
    {
        Ok(NumberTable {
            numbers: Vec::with_capacity(alloc, room as usize)?,
            count: 0,
            room,
        })
    }

    /// The number of the name, or 0.
    pub fn get(&self, name: u32) -> u64
        ensures { result ≡ slice_index self.now.numbers name }
    {
        match self.numbers.get(name as usize) {
            Some(number) => *number,
            None => 0,
        }
    }

    /// How many names are there.
    pub fn count(&self) -> u32
        ensures { result ≡ count_of self.now.numbers }
    {
        self.count
    }

    /// Sets the number of the name; 0 takes the name away.
    pub fn set(&mut self, name: u32, number: u64)
        requires { name < self.old.room }
        ensures set { IsSet self.old.numbers self.new.numbers name number }
        ensures room { self.new.room ≡ self.old.room }
    {
        let place = name as usize;
        reach(&mut self.numbers, place);
        self.count -= held(self.numbers[place]);
        self.count += held(number);
        self.numbers[place] = number;
    }

    /// Puts the rows of the names behind those of the list.
    pub fn push_rows(&self, dir: u8, rows: &mut Vec<DirRow>)
        requires { length rows.old.items + length (rows_of dir self.now.numbers)
            ≤ vec_capacity rows.old }
        ensures rows { rows.new.items ≡ rows.old.items ++ rows_of dir self.now.numbers }
        ensures capacity { vec_capacity rows.new ≡ vec_capacity rows.old }
    {
        for place in 0..self.numbers.len() {
            let ino = self.numbers[place];
            if ino != 0 {
                let name = place as u32;
                rows.push_reserved(DirRow { dir, name, ino });
            }
        }
    }

    /// The least name that is there from this one on.
    pub fn first_from(&self, name: usize) -> Option<u32>
        ensures there { IfSome result (λ n. (name ≤ n) × (0 < slice_index self.now.numbers n)) }
        ensures least { IfSome result (λ n.
            (other : ℕ) → name ≤ other → other < n → slice_index self.now.numbers other ≡ 0) }
        ensures none { IfNone result
            ((other : ℕ) → name ≤ other → slice_index self.now.numbers other ≡ 0) }
    {
        for place in name..self.numbers.len() {
            if self.numbers[place] != 0 {
                return Some(place as u32);
            }
        }
        None
    }
}
