//! What a run of the simulator is set up with: the machine and what an access costs there, the passes' work, and the policy.
#![tactic(auto)]

mod adviser;
mod built_in;
mod clock;
mod draws;
mod lines;
mod places;
mod sets;
mod setup;

pub use adviser::{Advice, Adviser, advised};
pub use built_in::BuiltIn;
pub use clock::{later, plus, times};
pub use draws::{reads, seeded, think};
pub use lines::{Line, Reach, Touched, touch};
pub use places::{LINES, WORD_LINES, core_at, is_load, line_at, line_of, put_line, rung};
pub use sets::core_set;
pub use setup::{Core, Costs, Layout, PASSES, Setup, Tries, Work, cores_of};
