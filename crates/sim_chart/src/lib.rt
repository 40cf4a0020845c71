//! A picture of what the policies of a setup come to: bars, as SVG.
#![tactic(auto)]

mod bars;
mod picture;
mod shapes;

pub use bars::Bar;
pub use picture::picture_of;
