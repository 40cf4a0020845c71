//! The programs of a policy as words of a line.
ghost use Rattle.std.specs.Prelude.{◌≡◌, ◌∷◌, ◌++◌, OnOk, IfOk, option_map};
ghost use Rattle.policy_text.specs.Programs.{program_in, program_word, source_in};

use crate::error::NoMemory;
use crate::writing::push_word;
use doc_text::{hex_bytes, is_same, push_hex};
use policy_source::PolicySource;
use std::alloc::Global;

fn program_of(alloc: Global, word: &[u8]) -> Result<Option<Option<Vec<u8>>>, NoMemory>
    ensures { IfOk result (λ o. option_map (option_map (λ v. v.items)) o ≡ program_in word.now) }
{
    if is_same(word, b"-") {
        return Ok(Some(None));
    }
    match hex_bytes(alloc, word)? {
        Some(bytes) => Ok(Some(Some(bytes))),
        None => Ok(None),
    }
}

/// The programs that two words say, `-` for none, or hexadecimal digits in either case; none where a digit is bad or one is left
/// over.
pub fn source_of(
    alloc: Global,
    should: &[u8],
    skip: &[u8],
) -> Result<Option<PolicySource>, NoMemory>
    ensures { IfOk result (λ o. o ≡ source_in should.now skip.now) }
{
    let Some(should) = program_of(alloc, should)? else {
        return Ok(None);
    };
    let Some(skip) = program_of(alloc, skip)? else {
        return Ok(None);
    };
    Ok(Some(PolicySource { should, skip }))
}

/// Writes a blank and a program: `-` for none, else its digits in lower case.
#[tactic(auto, using(crate::proofs::Written::joined_rules))]
pub fn push_program(
    alloc: Global,
    out: &mut Vec<u8>,
    program: &Option<Vec<u8>>,
) -> Result<(), NoMemory>
    ensures { OnOk result (out.new.items
        ≡ out.old.items ++ (32 ∷ program_word (option_map (λ v. v.items) program.now))) }
{
    match program {
        None => push_word(out, b"-"),
        Some(bytes) => {
            out.push(b' ')?;
            push_hex(alloc, out, bytes.as_slice())?;
            Ok(())
        }
    }
}
