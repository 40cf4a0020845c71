//! In which line each word and each datum stands.
ghost use Rattle.std.specs.Prelude.{◌≡◌, ◌<◌, slice_set};
ghost use Rattle.shfl_core.specs.Words as words;
ghost use Rattle.sim_setup.specs.Places as places;

use crate::lines::Line;
use crate::sets::NO_CORES;
use crate::setup::{Core, Layout, PASSES};
use shfl_core::words::{LINE_WORDS, index};
use shfl_core::{Access, Word};

/// The lines before the data: of the lock word, of the tail word, and of the words of 1,024 passes.
pub const WORD_LINES: usize = 1026;

/// The most lines of data.
pub const DATA_LINES: usize = 64;

/// All lines.
pub const LINES: usize = WORD_LINES + DATA_LINES;

// The place of a word where they stand close: lock and tail, and then four for each pass.
fn close_place(word: Word) -> usize
    ensures { result ≡ places.close_place word }
{
    match word {
        Word::Lock => 0,
        Word::Tail => 1,
        Word::Next(pass) => 4 * pass as usize + 2,
        Word::State(pass) => 4 * pass as usize + 3,
        Word::Attr(pass) => 4 * pass as usize + 4,
        Word::Bell(pass) => 4 * pass as usize + 5,
    }
}

/// The line of a word.
#[inline(always)]
pub fn line_of(layout: Layout, word: Word) -> usize
    ensures { result ≡ places.line_of layout word }
{
    match layout {
        Layout::Padded => index(word) / LINE_WORDS,
        Layout::Joined => match word {
            Word::Tail => 0,
            _ => index(word) / LINE_WORDS,
        },
        Layout::Packed => close_place(word) / 8,
    }
}

/// Whether the operation only reads.
#[inline(always)]
pub fn is_load(access: Access) -> bool
    ensures { result ≡ places.is_load access }
{
    matches!(access, Access::Load { .. })
}

/// The pass whose wakeup word the operation sets.
#[inline(always)]
pub fn rung(access: Access) -> Option<u32>
    ensures { result ≡ places.rung access }
{
    match access {
        Access::Store {
            w: Word::Bell(whom),
            v: _,
        } => Some(whom),
        _ => None,
    }
}

/// The line there; past the last nobody has it.
#[inline(always)]
pub fn line_at(lines: &[Line; LINES], at: usize) -> Line
    ensures { result ≡ places.line_at lines.now at }
{
    if at < LINES {
        lines[at]
    } else {
        Line {
            has: NO_CORES,
            free: 0,
        }
    }
}

/// Puts a line there, where there is one.
#[inline(always)]
pub fn put_line(lines: &mut [Line; LINES], at: usize, line: Line)
    ensures { lines.new ≡ slice_set lines.old at line }
{
    if at < LINES {
        lines[at] = line;
    }
}

/// The core of a pass.
#[inline(always)]
pub fn core_at(cores: &[Core; PASSES], pass: u32) -> &Core
    requires { pass < 1024 }
    ensures { result.now ≡ places.core_at cores.now pass }
{
    &cores[pass as usize]
}
