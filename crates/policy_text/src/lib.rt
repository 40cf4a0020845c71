//! What documents with policies share: their headings, attributes of lines, programs as words, and which programs are accepted.
#![tactic(auto)]

mod acceptance;
mod attributes;
mod document_error;
mod error;
mod heading;
mod programs;
mod rules;
mod sections;
mod writing;

pub use acceptance::accepts;
pub use attributes::{attr_of, push_attr};
pub use document_error::DocumentError;
pub use error::NoMemory;
pub use heading::{heading_of, profile_due, push_heading, push_version};
pub use programs::{push_program, source_of};
pub use rules::{RuleSource, rule_source, text_behind};
pub use sections::{Section, attrs_of, begins};
pub use writing::{push_number, push_word};
