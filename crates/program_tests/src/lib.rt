//! Tests of programs and policies.
#![tactic(auto)]

#[cfg(test)]
mod assembled;
#[cfg(test)]
mod assembly;
#[cfg(test)]
mod checks;
#[cfg(test)]
mod instructions;
#[cfg(test)]
mod places;
#[cfg(test)]
mod policies;
#[cfg(test)]
mod running;
#[cfg(test)]
mod verifying;
#[cfg(test)]
mod versions;
