//! Tests of text, streams, documents and the simulator.
#![tactic(auto)]

#[cfg(test)]
mod checks;
#[cfg(test)]
mod generated_traces;
#[cfg(test)]
mod names;
#[cfg(test)]
mod pictures;
#[cfg(test)]
mod policies;
#[cfg(test)]
mod pools;
#[cfg(test)]
mod schedules;
#[cfg(test)]
mod setups;
#[cfg(test)]
mod simulation;
#[cfg(test)]
mod streams;
#[cfg(test)]
mod text;
#[cfg(test)]
mod traces;
