//! The names of the forms of a lock.
ghost use Rattle.std.specs.Prelude.{◌≡◌};
ghost use Rattle.lock_words.specs.Forms as words;

use doc_text::is_same;
use shfl_line::Form;

/// The name of a form: `spin`, `rw`, `park` or `rw-park`.
pub fn form_name(form: Form) -> &'static [u8]
    ensures { result.now ≡ words.form_text form }
{
    match form {
        Form::Spin => b"spin",
        Form::Rw => b"rw",
        Form::Park => b"park",
        Form::RwPark => b"rw-park",
    }
}

/// The form of this name, if there is one.
pub fn form_named(word: &[u8]) -> Option<Form>
    ensures { result ≡ words.form_named word.now }
{
    if is_same(word, b"spin") {
        Some(Form::Spin)
    } else if is_same(word, b"rw") {
        Some(Form::Rw)
    } else if is_same(word, b"park") {
        Some(Form::Park)
    } else if is_same(word, b"rw-park") {
        Some(Form::RwPark)
    } else {
        None
    }
}
