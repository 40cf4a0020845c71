//! The columns of one pass or one number.
ghost use Rattle.std.specs.Prelude.{◌≡◌, ◌≤◌, IsTrue};
ghost use Rattle.line_picture.specs.Lists.{has_readers, has_sleepers, is_number, is_pass, is_batch, is_waiter, is_holder};
ghost use Rattle.line_picture.specs.Lists.{is_detached, is_shuffler, is_act, answer_in, lock_in};

use crate::pieces::around_colon;
use doc_text::{is_same, number};
use shfl_line::{CLOSED, Form, LockWord, READER};

/// Whether readers may hold a lock of this form.
pub fn has_readers(form: Form) -> bool
    ensures { result ≡ has_readers form }
{
    matches!(form, Form::Rw | Form::RwPark)
}

/// Whether waiters sleep in a lock of this form.
pub fn has_sleepers(form: Form) -> bool
    ensures { result ≡ has_sleepers form }
{
    matches!(form, Form::Park | Form::RwPark)
}

pub fn is_number(wanted: u32, word: &[u8]) -> bool
    ensures exact { result ≡ is_number wanted word.now }
    ensures within { IsTrue result → wanted ≤ 65536 }
{
    match number(65536, word) {
        Some(found) => found == u64::from(wanted),
        None => false,
    }
}

pub fn is_pass(passes: u32, word: &[u8]) -> bool
    ensures { result ≡ is_pass passes word.now }
{
    match number(63, word) {
        Some(pass) => pass < u64::from(passes),
        None => false,
    }
}

pub fn is_batch(word: &[u8]) -> bool
    ensures { result ≡ is_batch word.now }
{
    number(1024, word).is_some()
}

pub fn is_waiter(passes: u32, part: &[u8]) -> bool
    ensures { result ≡ is_waiter passes part.now }
{
    let (pass, batch) = around_colon(part);
    is_pass(passes, pass) && is_batch(batch)
}

pub fn is_holder(form: Form, passes: u32, part: &[u8]) -> bool
    ensures { result ≡ is_holder form passes part.now }
{
    let Some((how, pass)) = part.split_first() else {
        return false;
    };
    let may = *how == b'w' || (*how == b'r' && has_readers(form));
    may && is_pass(passes, pass)
}

pub fn is_detached(passes: u32, word: &[u8]) -> bool
    ensures { result ≡ is_detached passes word.now }
{
    is_same(word, b"-") || is_pass(passes, word)
}

pub fn is_shuffler(passes: u32, word: &[u8]) -> bool
    ensures { result ≡ is_shuffler passes word.now }
{
    if is_same(word, b"-") {
        return true;
    }
    let (how, pass) = around_colon(word);
    (is_same(how, b"rest") || is_same(how, b"walk")) && is_pass(passes, pass)
}

pub fn is_act(form: Form, word: &[u8]) -> bool
    ensures { result ≡ is_act form word.now }
{
    is_same(word, b"write")
        || is_same(word, b"free")
        || is_same(word, b"step")
        || (is_same(word, b"read") && has_readers(form))
}

pub fn answer_of(word: &[u8]) -> Option<bool>
    ensures { result ≡ answer_in word.now }
{
    if is_same(word, b"yes") {
        Some(true)
    } else if is_same(word, b"no") {
        Some(false)
    } else {
        None
    }
}

/// The lock word that a number is.
pub fn lock_of(word: &[u8]) -> Option<LockWord>
    ensures { result ≡ lock_in word.now }
{
    let found = number(u64::MAX, word)?;
    let lock = LockWord {
        held: found % 2 == 1,
        closed: found / CLOSED % 2 == 1,
        readers: (found / READER) as u32,
    };
    if lock.pack() == found {
        Some(lock)
    } else {
        None
    }
}
