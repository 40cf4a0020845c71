//! Tests of how waiters sleep, and in which order threads that wait hold the lock.
#![tactic(auto)]

#[cfg(test)]
mod checks;
#[cfg(test)]
mod orders;
#[cfg(test)]
mod rounds;
#[cfg(test)]
mod sleeping;
#[cfg(test)]
mod trying;
