//! The journal, as passes take turns at it.
use dir_table::Dir;
use hist_log::Entry;

/// The journal of all directories' calls, at which passes take turns. Neither below which number names are nor how many entries there
/// may be ever changes.
#[derive(Drop)]
pub struct DirJournal {
    pub journal: shard_rows::Journal,
}

impl shared_journal::Journal for DirJournal {
    ghost use Rattle.std.specs.Prelude.{[], ◌∷◌, slice_index};
    ghost use Rattle.shard_rows.specs.Replay as replay;

    type Entry = Entry<Dir>;

    ghost entries = { λ j. j.journal.entries };

    ghost limit = { λ j. j.journal.limit };

    ghost opening = { λ j. j.journal.room ∷ j.journal.limit ∷ [] };

    ghost legal = { λ opening entries.
        replay.IsLegal (replay.opening (slice_index opening 0)) entries };

    ghost worker = { λ e. e.worker };

    fn len(&self) -> u64 {
        u64::from(self.journal.len())
    }
}
