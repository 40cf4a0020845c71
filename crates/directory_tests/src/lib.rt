//! Tests of histories, the directory, its shards, and queues of calls.
#![tactic(auto)]

#[cfg(test)]
mod checks;
#[cfg(test)]
mod directory;
#[cfg(test)]
mod drawn_shards;
#[cfg(test)]
mod histories;
#[cfg(test)]
mod journal;
#[cfg(test)]
mod pool;
#[cfg(test)]
mod queue;
#[cfg(test)]
mod shard;
#[cfg(test)]
mod shards;
