//! Traces that are run by threads with a lock for each directory.
use crate::checks::same;
use crate::threads::{ATTACHED, GROUPED, Way, groups, is_by, nobody_gave_up, run_text, runs_four};
use dir_table::DirReply;
use shared_tests::Mark;
use std::sync::Wait;
use syn_outer::{Gate, Point};

/// Two workers, each of whom makes a name in a directory of its own.
pub(crate) const TWO_SHARDS: &[u8] =
    b"syncord-trace 1\nworker 0 0 0 0\nworker 0 0 0 0\npolicy none - -\ncalls\n0 make 0 a\n1 make 1 a\n";

/// Lets worker 0 hold its directory's lock until worker 1 has made its call in the other directory.
#[derive(Drop)]
pub(crate) struct ShardGate {
    held: Mark,
    made: Mark,
    pub(crate) late: Mark,
}

/// A gate at which nobody has been yet.
pub(crate) fn shard_gate() -> ShardGate {
    ShardGate {
        held: Mark::new(),
        made: Mark::new(),
        late: Mark::new(),
    }
}

impl Gate for ShardGate {
    fn at<Rt: Wait>(&self, _rt: &Rt, worker: u32, point: Point) {
        match (worker, point) {
            (1, Point::BeforeCall) => self.held.wait(1, &self.late),
            (0, Point::Holding) => {
                self.held.set();
                self.made.wait(1, &self.late);
            }
            (1, Point::AfterCall) => self.made.set(),
            _ => {}
        }
    }
}

#[test]
fn two_shards(rt: HostRuntime) {
    let gate = shard_gate();
    let outcome = run_text(&rt, rt.alloc(), TWO_SHARDS, Way::Shards, &gate);
    nobody_gave_up(&rt, &gate.late);
    is_by(&rt, rt.alloc(), &outcome, &[1, 0]);
    same(&rt, &outcome.dir.count(0), &DirReply::Number(1));
    same(&rt, &outcome.dir.count(1), &DirReply::Number(1));
}

#[test]
fn four_workers_share_shards(rt: HostRuntime) {
    runs_four(&rt, rt.alloc(), Way::Shards);
}

// Each worker's own attributes are asked about, and the policy is the trace's.
#[test]
fn grouped_order_in_a_shard(rt: HostRuntime) {
    groups(&rt, rt.alloc(), GROUPED, Way::Shards, &[]);
}

#[test]
fn attached_order_in_a_shard(rt: HostRuntime) {
    groups(&rt, rt.alloc(), ATTACHED, Way::Shards, &[(1, 1)]);
}
