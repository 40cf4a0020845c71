//! Text as it may stand in an element of HTML or SVG.
#![tactic(auto)]

mod escaping;
mod laws;

pub use escaping::push_escaped;
pub use laws::escaped_is_read_back;
