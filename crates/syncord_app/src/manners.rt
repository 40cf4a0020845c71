//! In which ways the program runs a trace.
use syncord_pool::PoolManner;
use syncord_replay::Manner;

/// By a thread for each worker, on one directory where writes prevail, else on copies.
pub struct ByThreads;

impl Manner for ByThreads {
    ghost use Rattle.shfl_workers.specs.LockRuns.{RanByThreads};

    ghost ran = { λ t history. RanByThreads t history };
}

/// By a thread for each worker, with a lock for each directory.
pub struct ByShards;

impl Manner for ByShards {
    ghost use Rattle.shfl_workers.specs.LockRuns.{RanByShards};

    ghost ran = { λ t history. RanByShards t history };
}

/// By a thread for each worker, which takes its calls from one queue.
pub struct ByTakers;

impl PoolManner for ByTakers {
    ghost use Rattle.syncord_app.specs.Takers.{RanByTakers};

    ghost ran = { λ t history. RanByTakers t history };
}
