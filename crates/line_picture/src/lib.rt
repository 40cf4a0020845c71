//! Reports of `line`, read, and drawn as text or as SVG: who holds the lock, who waits in which order, and who shuffles.
#![tactic(auto)]

mod changes;
mod columns;
mod error;
mod heading;
mod lists;
mod marks;
mod masks;
mod pieces;
mod read;
mod report;
mod rows;
mod shapes;
mod svg;
mod text;

pub use error::ReportError;
pub use read::read_report;
pub use report::{Event, Report, Row, State};
pub use svg::svg_picture;
pub use text::text_picture;
