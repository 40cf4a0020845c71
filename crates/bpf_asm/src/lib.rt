//! An assembler and a disassembler for the instructions of a small BPF: one instruction a line.
#![tactic(auto)]

mod assembler;
mod error;
mod form;
mod listing;
mod mnemonics;
mod names;
mod operand;
mod rows;
mod statement;
mod survey;

pub use assembler::assemble;
pub use error::AsmError;
pub use listing::disassemble;
