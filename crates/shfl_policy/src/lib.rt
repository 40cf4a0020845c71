//! Policies in bytecode: their context, how they are loaded, and how they answer.
#![tactic(auto)]

mod asked;
mod error;
mod laws;
mod loading;
mod policy;
mod running;

pub use asked::context;
pub use error::{Hook, LoadError, ProgramFault};
pub use laws::a_loaded_program_is_its_bytes;
pub use loading::load;
pub use policy::Policy;
pub use policy_source::PolicySource;
pub use running::Running;
