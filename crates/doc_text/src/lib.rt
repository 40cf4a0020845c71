//! Text of documents: lines, words, decimal numbers and hexadecimal digits, read in place and written.
#![tactic(auto)]

mod decimal;
mod fault;
mod hexadecimal;
mod laws;
mod lines;
mod numbers;
mod splits;
mod spread;
mod writing;

pub use decimal::push_decimal;
pub use fault::{Fault, or_fault};
pub use hexadecimal::hex_bytes;
pub use laws::{joined_is_read_back, read_is_joined};
pub use lines::{fixed_due, line_due, piece_at, text_at, text_of};
pub use numbers::{capped, is_decimal, number};
pub use splits::{
    five_words, four_words, is_same, one_word, six_words, three_words, two_words, word_at,
};
pub use spread::{DigitsError, spread_bytes};
pub use writing::{push_hex, push_line};
