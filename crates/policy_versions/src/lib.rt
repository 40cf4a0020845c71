//! Policies that are replaced while others use them: eight places for instances, and a word that says which version is current.
#![tactic(auto)]

mod chooser;
mod instance;
mod place;
mod registry;
mod turns;
mod view;

pub use chooser::UsingChooser;
pub use instance::Instance;
pub use place::{Place, Right};
pub use registry::{InUse, Published, Publisher, Registry, Using, VersionPass};
pub use turns::{Lost, SlotTurns, Turns};
