//! The bytes of a program as digits, a line for each slot.
ghost use Rattle.std.specs.Prelude.{◌≡◌, ◌++◌, ◌*◌, ◌≤◌, length, IfOk, OnOk};
ghost use Rattle.syncord_asm.specs.Slots.{digits_line, slot_lines};

use bpf_isa::SLOT_BYTES;
use doc_text::push_hex;
use std::alloc::{AllocError, Global};

/// Appends the bytes as a line of lower-case digits.
fn push_digits_line(alloc: Global, text: &mut Vec<u8>, bytes: &[u8]) -> Result<(), AllocError>
    ensures { OnOk result (text.new.items ≡ text.old.items ++ digits_line bytes.now) }
{
    push_hex(alloc, text, bytes)?;
    text.extend_from_slice(b"\n")
}

/// The slots of the bytes, a line of sixteen digits each. Bytes behind the last whole slot have none.
pub fn slot_lines(alloc: Global, bytes: &[u8]) -> Result<Vec<u8>, AllocError>
    ensures { IfOk result (λ text. text.items ≡ slot_lines bytes.now) }
{
    let mut text = Vec::new(alloc);
    for slot in 0..bytes.len() / SLOT_BYTES {
        let start = SLOT_BYTES * slot;
        push_digits_line(alloc, &mut text, &bytes[start..start + SLOT_BYTES])?;
    }
    Ok(text)
}
