//! Byte streams: what a source has left, what a sink holds, and how often each has failed.
ghost use Rattle.std.specs.Prelude.{◌<◌, List, ℕ, length, IfOk, Option, None};
ghost use Rattle.std.specs.Io.{ReadsAtMost, WritesAtMost};
ghost use Rattle.std.specs.Io.KnownBytes.{ReadConsumes};
ghost use Rattle.syn_outer.specs.Causes.{HasCause, CountsCall};
ghost use Rattle.syn_outer.specs.Bytes.{TookFront};

/// A read or a write failed. The count of faults has risen.
#[derive(Clone, Copy, Debug, PartialEq, Eq)]
pub struct Failed;

/// Where bytes come from.
pub trait Source {
    /// The bytes that it still holds, where it tells that.
    ghost left: { Self → Option (List ℕ) };

    /// How often it has failed. It never falls.
    ghost faults: { Self → ℕ };

    /// How often it was read, where it tells that.
    ghost calls: { Self → Option ℕ } = { λ _. None };

    /// Puts bytes at the front of `buf`, and says how many: 0 in a nonempty one only at the end.
    fn read(&mut self, buf: &mut [u8]) -> Result<usize, Failed>
        ensures bound { ReadsAtMost result buf.new }
        ensures bytes { ReadConsumes (left self.old) (left self.new) result buf.new }
        ensures cause { HasCause (faults self.old) (faults self.new) result }
        ensures counted { CountsCall (calls self.old) (calls self.new) };
}

/// Where bytes go to.
pub trait Sink {
    /// The bytes taken so far, where it tells that.
    ghost held: { Self → Option (List ℕ) };

    /// How often it has failed. It never falls.
    ghost faults: { Self → ℕ };

    /// Takes bytes from the front, and says how many: at least one of a nonempty piece.
    fn write(&mut self, bytes: &[u8]) -> Result<usize, Failed>
        ensures bound { WritesAtMost result bytes.now }
        ensures some { IfOk result (λ n. 0 < length bytes.now → 0 < n) }
        ensures bytes { TookFront (held self.old) (held self.new) result bytes.now }
        ensures cause { HasCause (faults self.old) (faults self.new) result };
}
