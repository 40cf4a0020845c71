//! The words of a lock, and the atomic operations on one of them.
//!
//! The words stand in one list: the lock word, the tail word, and then four for each pass: its next, state, attribute and wakeup word.
//! No two of these share a cache line with each other, nor does the last with what lies behind the list.
ghost use Rattle.std.specs.Prelude.{◌≡◌, ◌≤◌, length, IfOk};
ghost use Rattle.shfl_core.specs.Words as words;
ghost use Rattle.shfl_core.specs.Worlds as worlds;

use shfl_line::{Attr as Attributes, NoMemory};
use std::alloc::Global;

/// The words from the lock word to the tail word, and from each pass to the next: 80 bytes, five pieces of 16. A list begins at a
/// multiple of 16 bytes, so a cache line of 64 has four pieces that follow each other. The words of a pass fill its first two, and
/// three are to spare: no line reaches from them to the next pass's.
pub const LINE_WORDS: usize = 10;

/// One word of a lock; the number is the pass that it belongs to.
#[derive(Clone, Copy, Debug, PartialEq, Eq, Drop)]
pub enum Word {
    Lock,
    Tail,
    Next(u32),
    State(u32),
    Attr(u32),
    Bell(u32),
}

/// One atomic operation on one word. Each finds the word's value; `Add` and `Sub` wrap.
#[derive(Clone, Copy, Debug, PartialEq, Eq, Drop)]
pub enum Access {
    Load { w: Word },
    Store { w: Word, v: u64 },
    Swap { w: Word, v: u64 },
    CompareSwap { w: Word, old: u64, new: u64 },
    Or { w: Word, v: u64 },
    And { w: Word, v: u64 },
    Xor { w: Word, v: u64 },
    Add { w: Word, v: u64 },
    Sub { w: Word, v: u64 },
}

/// The place of a word in the list.
#[inline(always)]
pub fn index(word: Word) -> usize
    ensures { result ≡ words.index word }
{
    match word {
        Word::Lock => 0,
        Word::Tail => LINE_WORDS,
        Word::Next(pass) => LINE_WORDS * (pass as usize + 2),
        Word::State(pass) => LINE_WORDS * (pass as usize + 2) + 1,
        Word::Attr(pass) => LINE_WORDS * (pass as usize + 2) + 2,
        Word::Bell(pass) => LINE_WORDS * (pass as usize + 2) + 3,
    }
}

/// The word that the operation touches.
#[inline(always)]
pub fn site(access: Access) -> Word
    ensures { result ≡ words.site access }
{
    match access {
        Access::Load { w } => w,
        Access::Store { w, v: _ } => w,
        Access::Swap { w, v: _ } => w,
        Access::CompareSwap { w, old: _, new: _ } => w,
        Access::Or { w, v: _ } => w,
        Access::And { w, v: _ } => w,
        Access::Xor { w, v: _ } => w,
        Access::Add { w, v: _ } => w,
        Access::Sub { w, v: _ } => w,
    }
}

/// The words of a lock with a pass for each of these attributes, at its opening.
pub fn opening_words(alloc: Global, attrs: &[Attributes]) -> Result<Vec<u64>, NoMemory>
    requires few { length attrs.now ≤ words.most_passes }
    ensures { IfOk result (λ w. w.items ≡ worlds.opening_words attrs.now) }
{
    let mut list = vec![in alloc; 0; LINE_WORDS * (attrs.len() + 2)]?;
    let mut pass = 0;
    for attr in attrs {
        list[index(Word::Attr(pass))] = attr.pack();
        pass += 1;
    }
    Ok(list)
}
