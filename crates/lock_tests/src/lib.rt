//! Tests of the lock: its line states, its machine over plain words, one seat of its shared words, tickets.
#![tactic(auto)]

#[cfg(test)]
mod checks;
#[cfg(test)]
mod line_states;
#[cfg(test)]
mod one_seat;
#[cfg(test)]
mod overtaking;
#[cfg(test)]
mod parking_waiter;
#[cfg(test)]
mod plain_world;
#[cfg(test)]
mod shared_waiter;
#[cfg(test)]
mod stealing;
#[cfg(test)]
mod tickets;
#[cfg(test)]
mod word_machine;
