//! Tests of the cells behind the lock, on one thread and on several.
#![tactic(auto)]

#[cfg(test)]
mod attrs;
#[cfg(test)]
mod cell;
#[cfg(test)]
mod checks;
#[cfg(test)]
mod copies;
#[cfg(test)]
mod register;
