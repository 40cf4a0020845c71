ghost use Rattle.std.specs.Prelude.{◌≡◌};
ghost use Rattle.doc_text.specs.Faults.{or_fault};

/// Why bytes are no document: the first bad line, counted from 1, and the lowest fault on it.
#[derive(Clone, Copy, Debug, PartialEq, Eq)]
pub struct Fault {
    pub line: u32,
    pub what: u8,
}

/// The value, or a fault of this line.
pub fn or_fault<T: Drop>(found: Option<T>, line: u32, what: u8) -> Result<T, Fault>
    ensures { result ≡ or_fault line what found }
{
    match found {
        Some(value) => Ok(value),
        None => Err(Fault { line, what }),
    }
}
