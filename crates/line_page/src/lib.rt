//! A report of `line` as a page of HTML: one file, which a browser opens without a network.
#![tactic(auto)]

mod body;
mod choosing;
mod drawing;
mod head;
mod page;
mod reading;
mod style;
mod telling;

pub use page::page_of;
