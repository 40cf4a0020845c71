//! A call is committed, by a pass that has what lies behind the locks of its directories.
ghost use Rattle.std.specs.Prelude.{◌≡◌, ◌⊎◌, ◌<◌, false, slice_index};
ghost use Rattle.dir_table.specs.Meanings.{IsAdmitted};
ghost use Rattle.shard_rows.specs.Replay.{entry_by};
ghost use Rattle.shard_rows.specs.Shares.{first_named};
ghost use Rattle.dir_shards.specs.Commits.{GoesOn, SpendsCall};

use crate::dir_journal::DirJournal;
use crate::kept_shard::KeptShard;
use crate::steps::{AnsweredIn, AnsweredOver, CallIn, CallOver};
use dir_table::{DirCall, DirReply};
use hist_log::Receipt;
use shared_journal::{Committed, JournalPass, JournalTable};
use std::sync::Wait;

/// A call, with what lies behind the lock of the directory that it names first. Waits while the journal is out.
pub fn commit_in<R: Wait>(
    rt: &R,
    table: &JournalTable<DirJournal>,
    pass: &mut JournalPass<DirJournal>,
    kept: KeptShard,
    call: &DirCall,
) -> (DirReply, Receipt, KeptShard)
    requires table { (pass.old.table ≡ table.now.id) × (kept.table ≡ table.now.id) }
    requires room { slice_index pass.old.opening 0 ≡ kept.room }
    requires home { pass.old.is_out ≡ false }
    requires left { 0 < pass.old.left }
    requires admitted { IsAdmitted kept.room call.now }
    requires named { first_named call.now ≡ kept.dir }
    ensures goes_on { GoesOn kept.room pass.old.seen
        (entry_by pass.old.number call.now result.0 result.1.place) pass.new.seen }
    ensures pass { SpendsCall pass.old pass.new }
    ensures kept { result.2 ≡ record kept { list = pass.new.seen } }
{
    let (shard, known) = kept.into_parts();
    let step = CallIn { shard, call: *call };
    let Committed {
        answer,
        place,
        first,
        second: _,
    } = pass.commit(rt, table, known, None, step);
    let AnsweredIn { reply, shard } = answer;
    (reply, Receipt { place }, KeptShard::new(shard, first))
}

/// A rename, with what lies behind the locks of its two directories. Waits while the journal is out.
pub fn commit_over<R: Wait>(
    rt: &R,
    table: &JournalTable<DirJournal>,
    pass: &mut JournalPass<DirJournal>,
    lower: KeptShard,
    higher: KeptShard,
    call: &DirCall,
) -> (DirReply, Receipt, KeptShard, KeptShard)
    requires table { (pass.old.table ≡ table.now.id) × (lower.table ≡ table.now.id)
        × (higher.table ≡ table.now.id) }
    requires room { (slice_index pass.old.opening 0 ≡ lower.room)
        × (higher.room ≡ lower.room) }
    requires home { pass.old.is_out ≡ false }
    requires left { 0 < pass.old.left }
    requires admitted { IsAdmitted lower.room call.now }
    requires named { (first_named call.now ≡ lower.dir) ⊎ (first_named call.now ≡ higher.dir) }
    ensures goes_on { GoesOn lower.room pass.old.seen
        (entry_by pass.old.number call.now result.0 result.1.place) pass.new.seen }
    ensures pass { SpendsCall pass.old pass.new }
    ensures lower { result.2 ≡ record lower { list = pass.new.seen } }
    ensures higher { result.3 ≡ record higher { list = pass.new.seen } }
{
    let (low_shard, low_known) = lower.into_parts();
    let (high_shard, high_known) = higher.into_parts();
    let step = CallOver {
        lower: low_shard,
        higher: high_shard,
        call: *call,
    };
    let Committed {
        answer,
        place,
        first,
        second,
    } = pass.commit(rt, table, low_known, Some(high_known), step);
    let Some(second) = second else { unreachable!() };
    let AnsweredOver {
        reply,
        lower,
        higher,
    } = answer;
    (
        reply,
        Receipt { place },
        KeptShard::new(lower, first),
        KeptShard::new(higher, second),
    )
}
