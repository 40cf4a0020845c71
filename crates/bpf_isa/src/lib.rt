//! The instructions of a small BPF: their encoding as bytes (RFC 9669, sections 3 to 5), and what they read, write and lead to.
#![tactic(auto)]

mod alu_table;
mod decoder;
mod encoder;
mod error;
mod fault;
mod flow;
mod insn;
mod operands;
mod raw;
mod table;

pub use decoder::{MAX_SLOTS, decode};
pub use encoder::encode;
pub use error::{IsaError, NoMemory};
pub use fault::SlotFault;
pub use flow::target;
pub use insn::{AluOp, Cond, Insn, Operand, Order, Profile, Size, Width};
pub use raw::{Raw, SLOT_BYTES};
pub use table::insn_of;
