//! The words of the program.
ghost use Rattle.std.specs.Prelude.{◌≡◌, map, option_map, string_bytes};
ghost use Rattle.syncord_sim.specs.Commands.{said, command_in};

use doc_text::is_same;

/// What is written of a setup.
#[derive(Clone, Copy, Drop)]
pub enum Command<'a> {
    /// The report of its policies' runs.
    Report,
    /// A picture of them, as SVG.
    Picture,
    /// The first events of the run of the policy of this name, as a schedule.
    Schedule(&'a [u8]),
}

/// The command that the words behind the program's name are.
pub fn command_of(words: &[String]) -> Option<Command<'_>>
    ensures { option_map said result ≡ command_in (map string_bytes words.now) }
{
    match words {
        [] => Some(Command::Report),
        [word] => {
            if is_same(word.as_bytes(), b"svg") {
                Some(Command::Picture)
            } else {
                None
            }
        }
        [word, name] => {
            if is_same(word.as_bytes(), b"line") {
                Some(Command::Schedule(name.as_bytes()))
            } else {
                None
            }
        }
        _ => None,
    }
}
