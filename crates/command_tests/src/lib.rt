//! Tests of each command from bytes to bytes.
#![tactic(auto)]

#[cfg(test)]
mod asm;
#[cfg(test)]
mod checks;
#[cfg(test)]
mod endings;
#[cfg(test)]
mod line;
#[cfg(test)]
mod outcomes;
#[cfg(test)]
mod pool;
#[cfg(test)]
mod replay;
#[cfg(test)]
mod serial;
#[cfg(test)]
mod verify;
#[cfg(test)]
mod words;
