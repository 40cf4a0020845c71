//! What escaping comes to.
ghost use Rattle.std.specs.Prelude.{◌≡◌, ℕ, List};
ghost use Rattle.markup_text.specs.Escaping.{escaped};
ghost use Rattle.markup_text.specs.Reading.{said, HasNoTag};

/// Escaped text ends no element, and is read back as it was. The laws are about the definitions alone.
pub fn escaped_is_read_back()
    ensures inside { (text : List ℕ) → HasNoTag (escaped text) }
    ensures said { (text : List ℕ) → said (escaped text) ≡ text }
{}
