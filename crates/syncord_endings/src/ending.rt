//! How a command ends, and the status that says so.
ghost use Rattle.std.specs.Prelude.{◌≡◌};

/// Why a command has no report.
#[derive(Clone, Copy)]
pub enum Refusal {
    /// The first bad line, and the lowest fault on it.
    Line { line: u32, what: u8 },
    /// The program as a whole has the fault of this number.
    Program { number: u8 },
    /// A slot of the program has it.
    Slot { number: u8, slot: u32 },
    /// A register that a slot uses has it.
    Register { number: u8, slot: u32, register: u8 },
    NoMemory,
}

impl Refusal {
    ghost use Rattle.syncord_endings.specs.Endings.{status_of_refusal};

    pub fn status(self) -> u8
        ensures { result ≡ status_of_refusal self }
    {
        match self {
            Refusal::Line { .. } => 1,
            Refusal::Program { .. } => 6,
            Refusal::Slot { .. } => 6,
            Refusal::Register { .. } => 6,
            Refusal::NoMemory => 5,
        }
    }
}

/// How a command ends.
#[derive(Clone, Copy)]
pub enum Ending {
    Done,
    NoReport(Refusal),
    TooLarge,
    ReadFault,
    /// After so many bytes.
    WriteFault(usize),
}

impl Ending {
    ghost use Rattle.syncord_endings.specs.Endings.{status_of};

    pub fn status(self) -> u8
        ensures { result ≡ status_of self }
    {
        match self {
            Ending::Done => 0,
            Ending::NoReport(refusal) => refusal.status(),
            Ending::TooLarge => 1,
            Ending::ReadFault => 3,
            Ending::WriteFault(_) => 4,
        }
    }
}
