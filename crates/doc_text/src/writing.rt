ghost use Rattle.std.specs.Prelude.{◌≡◌, ◌++◌, OnOk};
ghost use Rattle.hex.specs.Hex.{encode_lower};
ghost use Rattle.doc_text.specs.Text.{ended};

use std::alloc::{AllocError, Global};

/// Writes a line: its text and a line feed.
pub fn push_line(out: &mut Vec<u8>, text: &[u8]) -> Result<(), AllocError>
    ensures { OnOk result (out.new.items ≡ out.old.items ++ ended text.now) }
{
    out.extend_from_slice(text)?;
    out.extend_from_slice(b"\n")
}

/// Writes bytes as hexadecimal digits in lower case, two a byte.
pub fn push_hex(alloc: Global, out: &mut Vec<u8>, bytes: &[u8]) -> Result<(), AllocError>
    ensures { OnOk result (out.new.items ≡ out.old.items ++ encode_lower bytes.now) }
{
    let digits = hex::encode(alloc, bytes)?;
    out.extend_from_slice(digits.as_bytes())
}
