//! The words of the program.
ghost use Rattle.std.specs.Prelude.{◌≡◌, map, string_bytes};
ghost use Rattle.syncord_rounds.specs.Commands.{word_in, words_in, command_in};

use crate::lock::Lock;
use doc_text::is_same;

/// How a trace is run.
#[derive(Clone, Copy, Debug, PartialEq, Eq)]
pub enum Command {
    /// Each call by its worker, on this kind of lock, or on the one that `syncord replay` takes.
    Replay(Option<Lock>),
    /// From one queue.
    Pool,
}

fn of_word(word: &[u8]) -> Option<Command>
    ensures { result ≡ word_in word.now }
{
    if is_same(word, b"replay") {
        Some(Command::Replay(None))
    } else if is_same(word, b"shards") {
        Some(Command::Replay(Some(Lock::Shards)))
    } else if is_same(word, b"pool") {
        Some(Command::Pool)
    } else {
        None
    }
}

fn of_two(word: &[u8], kind: &[u8]) -> Option<Command>
    ensures { result ≡ words_in word.now kind.now }
{
    if !is_same(word, b"replay") {
        None
    } else if is_same(kind, b"one") {
        Some(Command::Replay(Some(Lock::One)))
    } else if is_same(kind, b"copies") {
        Some(Command::Replay(Some(Lock::Copies)))
    } else {
        None
    }
}

/// The command that the words behind the program's name are.
pub fn command_of(words: &[String]) -> Option<Command>
    ensures { result ≡ command_in (map string_bytes words.now) }
{
    match words {
        [word] => of_word(word.as_bytes()),
        [word, kind] => of_two(word.as_bytes(), kind.as_bytes()),
        _ => None,
    }
}
