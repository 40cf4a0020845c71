//! The names that a text declares, each with the line that has it and the slot behind.
ghost use Rattle.std.specs.Prelude.{◌≡◌, ℕ, List, Option, length};
ghost use Rattle.bpf_asm.specs.Names.{key_of, is_before, repeats, lower, mark_in, first_repeat, AreDeclared, AreInOrder, AreMarks, IsLowest};

use std::cmp::Ordering;

/// Where a name stands: the line that declares it, counted from 1, and the slot behind it.
#[derive(Clone, Copy)]
pub struct Mark {
    pub line: u32,
    pub slot: u32,
}

/// A declaration: a name with a number that goes by its bytes, and where it stands. Names with different numbers are told
/// apart without a look at the text.
#[derive(Clone, Copy, PartialEq, Eq, PartialOrd, Ord)]
pub struct Declared<'a> {
    pub key: u64,
    pub name: &'a [u8],
    pub line: u32,
    pub slot: u32,
}

/// The number of a name.
#[tactic(auto, unfolding(crate::specs::Names::key_of))]
pub fn key_of(name: &[u8]) -> u64
    ensures { result ≡ key_of name.now }
{
    let mut key: u64 = 0;
    for byte in name {
        key = key
            .wrapping_mul(0x100_0000_01b3)
            .wrapping_add(u64::from(*byte));
    }
    key
}

/// Whether a declaration stands before those of a name, which has this number.
fn is_before(declared: &Declared<'_>, key: u64, name: &[u8]) -> bool
    ensures { result ≡ is_before declared.now key name.now }
{
    match declared.key.cmp(&key) {
        Ordering::Less => true,
        Ordering::Equal => declared.name.cmp(&name).is_lt(),
        Ordering::Greater => false,
    }
}

/// The mark of a name among declarations in order.
pub fn mark_named(names: &[Declared<'_>], name: &[u8]) -> Option<Mark>
    requires { AreInOrder names.now }
    ensures { (marked : List ℕ → Option Mark) → AreMarks names.now marked
        → result ≡ marked name.now }
{
    let key = key_of(name);
    let mut low = 0;
    let mut high = names.len();
    while low < high {
        let middle = low + (high - low) / 2;
        if is_before(&names[middle], key, name) {
            low = middle + 1;
        } else {
            high = middle;
        }
    }
    if low == names.len() {
        return None;
    }
    let found = names[low];
    if found.name != name {
        return None;
    }
    Some(Mark {
        line: found.line,
        slot: found.slot,
    })
}

/// Whether a declaration repeats the name of the one before it.
fn repeats(before: &Declared<'_>, declared: &Declared<'_>) -> bool
    ensures { result ≡ repeats before.now declared.now }
{
    before.key == declared.key && before.line < declared.line && before.name == declared.name
}

fn lower(found: Option<u32>, line: u32) -> Option<u32>
    ensures { result ≡ lower found line }
{
    match found {
        Some(found) if found <= line => Some(found),
        _ => Some(line),
    }
}

/// The lowest line of a declaration that repeats the name of the one before it.
fn lowest_repeat(names: &[Declared<'_>]) -> Option<u32>
    ensures { IsLowest names.now (length names.now) result }
{
    let mut found = None;
    for place in 1..names.len() {
        if repeats(&names[place - 1], &names[place]) {
            found = lower(found, names[place].line);
        }
    }
    found
}

/// Puts declarations in order, and gives the first line that declares a name which an earlier line declares.
pub fn settle(names: &mut Vec<Declared<'_>>) -> Option<u32>
    requires { (high : ℕ) × AreDeclared 1 names.old.items high }
    ensures repeat { result ≡ first_repeat (mark_in names.old.items) names.old.items }
    ensures order { AreInOrder names.new.items }
    ensures marks { AreMarks names.new.items (mark_in names.old.items) }
{
    names.sort_unstable();
    lowest_repeat(names.as_slice())
}
