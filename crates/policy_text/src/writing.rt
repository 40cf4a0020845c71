//! Words and numbers, each behind a blank.
ghost use Rattle.std.specs.Prelude.{◌≡◌, ◌∷◌, ◌++◌, decimal, OnOk};

use crate::error::NoMemory;
use doc_text::push_decimal;

/// Writes a blank and a word.
#[tactic(auto, using(crate::proofs::Written::joined_rules))]
pub fn push_word(out: &mut Vec<u8>, word: &[u8]) -> Result<(), NoMemory>
    ensures { OnOk result (out.new.items ≡ out.old.items ++ (32 ∷ word.now)) }
{
    out.push(b' ')?;
    out.extend_from_slice(word)?;
    Ok(())
}

/// Writes a blank and a number.
#[tactic(auto, using(crate::proofs::Written::joined_rules))]
pub fn push_number(out: &mut Vec<u8>, n: u64) -> Result<(), NoMemory>
    ensures { OnOk result (out.new.items ≡ out.old.items ++ (32 ∷ decimal n)) }
{
    out.push(b' ')?;
    push_decimal(out, n)?;
    Ok(())
}
