//! Tests of the lock on words that threads share, by its public calls.
#![tactic(auto)]

#[cfg(test)]
mod alike;
#[cfg(test)]
mod boards;
#[cfg(test)]
mod checks;
#[cfg(test)]
mod crowd;
#[cfg(test)]
mod driven;
#[cfg(test)]
mod head;
#[cfg(test)]
mod straight;
#[cfg(test)]
mod threads;
#[cfg(test)]
mod turns;
