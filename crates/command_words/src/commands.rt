//! The words of a command.
ghost use Rattle.std.specs.Prelude.{◌≡◌, map, string_bytes, IfSome};

use crate::numbers::{BulkWords, bulk_words};
use bpf_isa::Profile;
use doc_text::is_same;

/// What the program can do.
#[derive(Clone, Copy)]
pub enum Command {
    /// Runs a schedule.
    Line,
    /// Verifies a policy program.
    Verify { profile: Profile },
    /// Replays a trace.
    Replay,
    /// Replays a trace with a lock for each directory.
    Shards,
    /// Runs the calls of a trace from one queue.
    Pool,
    /// Replays the trace that a seed makes, and sums it up.
    Bulk(BulkWords),
    /// Assembles a policy program.
    Assemble { profile: Profile },
    /// Lists a policy program as assembly.
    Disassemble { profile: Profile },
}

impl Command {
    ghost use Rattle.command_words.specs.Commands.{IsPossible, word_in, words_in, bulk_in, command_in};

    fn of_word(word: &[u8]) -> Option<Command>
        ensures exact { result ≡ word_in word.now }
        ensures possible { IfSome result IsPossible }
    {
        if is_same(word, b"line") {
            Some(Command::Line)
        } else if is_same(word, b"verify") {
            Some(Command::Verify {
                profile: Profile::One,
            })
        } else if is_same(word, b"replay") {
            Some(Command::Replay)
        } else if is_same(word, b"shards") {
            Some(Command::Shards)
        } else if is_same(word, b"pool") {
            Some(Command::Pool)
        } else if is_same(word, b"asm") {
            Some(Command::Assemble {
                profile: Profile::One,
            })
        } else if is_same(word, b"disasm") {
            Some(Command::Disassemble {
                profile: Profile::One,
            })
        } else {
            None
        }
    }

    fn of_two(word: &[u8], number: &[u8]) -> Option<Command>
        ensures exact { result ≡ words_in word.now number.now }
        ensures possible { IfSome result IsPossible }
    {
        if !is_same(number, b"2") {
            return None;
        }
        let profile = Profile::Two;
        if is_same(word, b"verify") {
            Some(Command::Verify { profile })
        } else if is_same(word, b"asm") {
            Some(Command::Assemble { profile })
        } else if is_same(word, b"disasm") {
            Some(Command::Disassemble { profile })
        } else {
            None
        }
    }

    fn of_bulk(word: &[u8], numbers: &[String]) -> Option<Command>
        ensures exact { result ≡ bulk_in word.now (map string_bytes numbers.now) }
        ensures possible { IfSome result IsPossible }
    {
        if !is_same(word, b"bulk") {
            return None;
        }
        let numbers = bulk_words(numbers)?;
        Some(Command::Bulk(numbers))
    }

    /// The command that the words behind the program's name are.
    pub fn of(words: &[String]) -> Option<Command>
        ensures exact { result ≡ command_in (map string_bytes words.now) }
        ensures possible { IfSome result IsPossible }
    {
        match words {
            [word] => Command::of_word(word.as_bytes()),
            [word, number] => Command::of_two(word.as_bytes(), number.as_bytes()),
            [word, numbers @ ..] => Command::of_bulk(word.as_bytes(), numbers),
            [] => None,
        }
    }
}
