//! The lock over plain words whose type keeps it lawful: its moves, and the line state that it shows between them.
#![tactic(auto)]

mod board;
mod glance;
mod laws;
mod phases;
pub mod showing;
mod sight;
mod world;

pub use laws::{every_move_of_a_world, every_round_of_a_world, what_a_world_shows};
pub use sight::Sight;
pub use world::World;
