//! Where the words of an arena stand.
ghost use Rattle.shfl_arena.specs.ArenaWords as words;
ghost use Rattle.std.specs.Prelude.{◌≡◌};

use shfl_core::words::Word;

/// How many locks there are, and whether each of their words has a cache line of its own.
#[derive(Clone, Copy, Debug, PartialEq, Eq, Drop)]
pub struct Shape {
    pub locks: u32,
    pub spread: bool,
}

/// The place of a lock's lock word: every 16 bytes, or, spread, every 128.
#[inline(always)]
pub fn lock_place(spread: bool, lock: u32) -> usize
    ensures { result ≡ words.lock_place spread lock }
{
    if spread {
        16 * lock as usize
    } else {
        2 * lock as usize
    }
}

/// How many words it is from one lock's lock word to the next one's.
pub(crate) fn stride(spread: bool) -> u32
    ensures { result ≡ words.lock_place spread 1 }
{
    if spread { 16 } else { 2 }
}

/// The place of a lock's lock word, by how far it is from one to the next. `spread` serves the proof alone.
#[inline(always)]
pub(crate) fn lock_place_by(spread: bool, stride: u32, lock: u32) -> usize
    requires { stride ≡ words.lock_place spread 1 }
    ensures { result ≡ words.lock_place spread lock }
{
    stride as usize * lock as usize
}

/// The place of a lock's tail word: the next one, or, spread, a cache line further.
#[inline(always)]
pub fn tail_place(spread: bool, lock: u32) -> usize
    ensures { result ≡ words.tail_place spread lock }
{
    if spread {
        16 * lock as usize + 8
    } else {
        2 * lock as usize + 1
    }
}

/// The place of the first node.
#[inline(always)]
pub fn first_node(shape: Shape) -> usize
    ensures { result ≡ words.first_node shape }
{
    lock_place(shape.spread, shape.locks) + 8
}

/// The place of a word of a lock. The nodes are those of all locks, 80 bytes each.
#[inline(always)]
pub fn place(shape: Shape, lock: u32, word: Word) -> usize
    ensures { result ≡ words.place shape lock word }
{
    match word {
        Word::Lock => lock_place(shape.spread, lock),
        Word::Tail => tail_place(shape.spread, lock),
        Word::Next(pass) => first_node(shape) + 10 * pass as usize,
        Word::State(pass) => first_node(shape) + 10 * pass as usize + 1,
        Word::Attr(pass) => first_node(shape) + 10 * pass as usize + 2,
        Word::Bell(pass) => first_node(shape) + 10 * pass as usize + 3,
    }
}
