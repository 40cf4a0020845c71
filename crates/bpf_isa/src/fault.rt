//! What is wrong with a slot.
ghost use Rattle.std.specs.Prelude.{◌≡◌};
ghost use Rattle.bpf_isa.specs.Faults.{fault_at};

use crate::error::IsaError;

/// What is wrong with a slot, the first of its faults in this order.
#[derive(Clone, Copy, Debug, PartialEq, Eq)]
pub enum SlotFault {
    Opcode,
    Register,
    Field,
    HalfLoad,
}

impl SlotFault {
    pub fn at(self, slot: u32) -> IsaError
        ensures { result ≡ fault_at slot self }
    {
        match self {
            SlotFault::Opcode => IsaError::BadOpcode { slot },
            SlotFault::Register => IsaError::BadRegister { slot },
            SlotFault::Field => IsaError::Reserved { slot },
            SlotFault::HalfLoad => IsaError::HalfWide { slot },
        }
    }
}
