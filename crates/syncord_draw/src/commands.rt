//! The words of the program.
ghost use Rattle.std.specs.Prelude.{◌≡◌, map, string_bytes};
ghost use Rattle.syncord_draw.specs.Commands.{command_named, command_in};

use doc_text::is_same;

/// What is made of a report: with each event, or with those at which something changes.
#[derive(Clone, Copy, Debug, PartialEq, Eq, Drop)]
pub enum Command {
    Svg { all: bool },
    Text { all: bool },
    /// A page of HTML, which has each event.
    Page,
}

fn command_named(word: &[u8]) -> Option<Command>
    ensures { result ≡ command_named word.now }
{
    if is_same(word, b"--text") {
        Some(Command::Text { all: false })
    } else if is_same(word, b"--all") {
        Some(Command::Svg { all: true })
    } else if is_same(word, b"--html") {
        Some(Command::Page)
    } else {
        None
    }
}

/// The command that the words behind the program's name are.
pub fn command_of(words: &[String]) -> Option<Command>
    ensures { result ≡ command_in (map string_bytes words.now) }
{
    match words {
        [] => Some(Command::Svg { all: false }),
        [word] => command_named(word.as_bytes()),
        [one, other] => {
            if is_same(one.as_bytes(), b"--text") && is_same(other.as_bytes(), b"--all") {
                Some(Command::Text { all: true })
            } else {
                None
            }
        }
        _ => None,
    }
}
