//! Tests of the workers of a trace and of a pool's takers: threads that meet at a lock.
#![tactic(auto)]

#[cfg(test)]
mod checks;
#[cfg(test)]
mod choosers;
#[cfg(test)]
mod reached;
#[cfg(test)]
mod rounds;
#[cfg(test)]
mod shards;
#[cfg(test)]
mod takers;
#[cfg(test)]
mod threads;
