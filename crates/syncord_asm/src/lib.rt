//! The commands `asm` and `disasm`: a program as text in and its slots out, and slots in and their text out.
#![tactic(auto)]

mod assembling;
mod listing;
mod run;
mod slots;

pub use run::{run_asm, run_disasm};
