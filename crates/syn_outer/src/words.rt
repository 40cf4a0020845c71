//! The words that a process was started with.
ghost use Rattle.std.specs.Prelude.{◌≤◌, All, length, string_bytes, vec_len, IfOk, IfSome};

use std::alloc::{AllocError, Global};
use std::env::{Env, FillError};

// One word more than any command has.
const WORDS: usize = 5;

// More bytes than a word of a command has.
const ROOM: usize = 64;

// The bytes as a word. Such as are no text are the empty word, which is no command's.
fn text_of(alloc: Global, bytes: &[u8]) -> Result<String, AllocError>
    ensures short { IfOk result (λ s. length (string_bytes s) ≤ length bytes.now) }
{
    match str::from_utf8(bytes) {
        Ok(text) => String::from_str(alloc, text),
        Err(_) => Ok(String::new(alloc)),
    }
}

// The word at a place, if there is one. One too long for a command's is the empty word.
fn word_at<E: Env>(alloc: Global, env: &E, place: usize) -> Result<Option<String>, AllocError>
    ensures short { IfOk result (λ o. IfSome o (λ s. length (string_bytes s) ≤ 64)) }
{
    let mut room = [0; ROOM];
    match env.arg(place, &mut room) {
        Ok(length) => Ok(Some(text_of(alloc, &room[..length])?)),
        Err(FillError::TooLong) => Ok(Some(String::new(alloc))),
        Err(FillError::NotPresent) => Ok(None),
    }
}

/// The words behind the program's name, no more of them than tell that they are no command's. The name itself isn't looked at.
pub fn words_of<E: Env>(alloc: Global, env: &E) -> Result<Vec<String>, AllocError>
    ensures few { IfOk result (λ v. vec_len v ≤ 5) }
    ensures short { IfOk result (λ v. All (λ s. length (string_bytes s) ≤ 64) v.items) }
{
    let mut words = Vec::new(alloc);
    for place in 1..=WORDS {
        match word_at(alloc, env, place)? {
            Some(word) => words.push(word)?,
            None => break,
        }
    }
    Ok(words)
}
