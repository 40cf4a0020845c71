//! What a journal is to the table that holds it.
ghost use Rattle.std.specs.Prelude.{◌≡◌, length};

/// A list of entries that grows at its end, in room that was taken at its making.
pub trait Journal {
    ghost use Rattle.std.specs.Prelude.{ℕ, List};

    type Entry;

    /// The entries, in order.
    ghost entries: { Self → List Self.Entry };

    /// How many entries there may be.
    ghost limit: { Self → ℕ };

    /// What else of it never changes.
    ghost opening: { Self → List ℕ };

    /// With what never changes, the entries are such as may be entered, in this order.
    ghost legal: { List ℕ → List Self.Entry → Type 0 };

    /// The number of the pass that made the entry.
    ghost worker: { Self.Entry → ℕ };

    /// How many entries there are.
    fn len(&self) -> u64
        ensures { result ≡ length (entries self.now) };
}
