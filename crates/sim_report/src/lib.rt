//! The report of the policy simulator: what the run of each policy of a setup comes to, and how that spreads over several seeds.
#![tactic(auto)]

mod columns;
mod endings;
mod figures;
mod laws;
mod lines;
mod report;
mod report_parts;
mod spread;
mod spread_parts;
mod tallies;
mod whole;

pub use endings::{Ended, run_of, run_setup};
pub use figures::{Figure, Line, Told, told_of, value_of};
pub use laws::tallies_add_up;
pub use report_parts::push_figure;
pub use tallies::{Key, Tally, tally_of, values_of};
pub use whole::report_of;
