//! Tests of many locks on one set of nodes, by their public calls.
#![tactic(auto)]

#[cfg(test)]
mod closing;
#[cfg(test)]
mod driven;
#[cfg(test)]
mod head;
#[cfg(test)]
mod shared;
#[cfg(test)]
mod sizes;
#[cfg(test)]
mod threads;
