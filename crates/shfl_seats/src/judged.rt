//! What an arena may be opened with.
ghost use Rattle.std.specs.Prelude.{◌↔◌, IsTrue};
ghost use Rattle.shfl_seats.specs.Tickets.{MayOpenArena};

/// Whether an arena may have so many locks and threads, the form of this number, and this limit of a batch.
pub fn opens(locks: u32, threads: usize, form: u8, limit: u16) -> bool
    ensures { IsTrue result ↔ MayOpenArena locks threads form limit }
{
    0 < locks
        && locks <= 16_777_216
        && 0 < threads
        && threads <= 65_535
        && form < 4
        && 0 < limit
        && limit <= 1024
}
