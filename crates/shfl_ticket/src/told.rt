//! What C is told, as structs of numbers.
ghost use Rattle.std.specs.Prelude.{◌≡◌};
ghost use Rattle.shfl_ticket.specs.Told.{ask_told, watch_told, outcome_told, of_decoder, of_verifier, of_program, hook_number, verdict_told};

use bpf_isa::IsaError;
use bpf_verifier::Refusal;
use shfl_core::{Ask, Watch};
use shfl_policy::{Hook, LoadError, ProgramFault};
use shfl_table::Outcome;

/// What the next step asks the policy: kind 0 nothing, 1 whether to skip the round, 2 whether the waiter joins the batch. The
/// attributes of the waiter are four numbers of 16 bits, the socket lowest.
#[repr(C)]
#[derive(Clone, Copy, Debug, PartialEq, Eq, Drop)]
pub struct ShflAsk {
    pub waiter: u64,
    pub batch: u16,
    pub kind: u8,
}

/// What the next step may change for a pass that waits: kind 0 nothing, 1 this pass looks whether it is its turn, 2 the pass `whom`
/// is grouped, 3 it is the turn of the pass `whom`.
#[repr(C)]
#[derive(Clone, Copy, Debug, PartialEq, Eq, Drop)]
pub struct ShflWatch {
    pub whom: u32,
    pub kind: u8,
}

/// Why a policy isn't attached. `fault` is 0 where it is, 1 to 12 for a fault of a program, and 255 where there is no memory. `hook`
/// is 0 for the program `should` and 1 for `skip`. A fault below 4 is of the whole program, others are of a slot, and 10 and 11 of a
/// register there; what isn't told is 0.
#[repr(C)]
#[derive(Clone, Copy, Debug, PartialEq, Eq, Drop)]
pub struct ShflVerdict {
    pub slot: u32,
    pub fault: u8,
    pub hook: u8,
    pub register: u8,
}

/// An answer to `ask` as C reads it.
pub fn ask_told(ask: Ask) -> ShflAsk
    ensures { result ≡ ask_told ask }
{
    match ask {
        Ask::Nothing => ShflAsk {
            waiter: 0,
            batch: 0,
            kind: 0,
        },
        Ask::Skip { batch } => ShflAsk {
            waiter: 0,
            batch,
            kind: 1,
        },
        Ask::Should { waiter, batch } => ShflAsk {
            waiter: waiter.pack(),
            batch,
            kind: 2,
        },
    }
}

/// An answer to `watch` as C reads it.
pub fn watch_told(watch: Watch) -> ShflWatch
    ensures { result ≡ watch_told watch }
{
    match watch {
        Watch::Other => ShflWatch { whom: 0, kind: 0 },
        Watch::Look => ShflWatch { whom: 0, kind: 1 },
        Watch::Mark { whom } => ShflWatch { whom, kind: 2 },
        Watch::Ready { whom } => ShflWatch { whom, kind: 3 },
    }
}

/// What came of a step as C reads it: 0 there was none to make, 1 the pass went on, 2 it looked in vain, 3 it looked in vain at the
/// queue's head and found stealing enabled, 4 it ended a round that moved nobody into the batch.
pub fn outcome_told(outcome: Outcome) -> u8
    ensures { result ≡ outcome_told outcome }
{
    match outcome {
        Outcome::Resting => 0,
        Outcome::Advanced => 1,
        Outcome::InVain => 2,
        Outcome::InVainOpen => 3,
        Outcome::GroupedNobody => 4,
    }
}

// The number, the slot and the register of a fault of decoding.
fn of_decoder(fault: IsaError) -> (u8, u32, u8)
    ensures { result ≡ of_decoder fault }
{
    match fault {
        IsaError::Empty => (1, 0, 0),
        IsaError::OddLength => (2, 0, 0),
        IsaError::TooLong => (3, 0, 0),
        IsaError::BadOpcode { slot } => (4, slot, 0),
        IsaError::BadRegister { slot } => (5, slot, 0),
        IsaError::Reserved { slot } => (6, slot, 0),
        IsaError::HalfWide { slot } => (7, slot, 0),
        IsaError::NoMemory => (255, 0, 0),
    }
}

// The number, the slot and the register of a fault of verifying.
fn of_verifier(fault: Refusal) -> (u8, u32, u8)
    ensures { result ≡ of_verifier fault }
{
    match fault {
        Refusal::Back { slot } => (8, slot, 0),
        Refusal::OutOfProgram { slot } => (9, slot, 0),
        Refusal::NoValue { slot, reg } => (10, slot, reg),
        Refusal::PointerUse { slot, reg } => (11, slot, reg),
        Refusal::BadLoad { slot } => (12, slot, 0),
        Refusal::NoMemory => (255, 0, 0),
    }
}

fn hook_told(hook: Hook) -> u8
    ensures { result ≡ hook_number hook }
{
    match hook {
        Hook::Should => 0,
        Hook::Skip => 1,
    }
}

// The number, the slot and the register of a program's fault.
fn of_program(fault: ProgramFault) -> (u8, u32, u8)
    ensures { result ≡ of_program fault }
{
    match fault {
        ProgramFault::Isa(fault) => of_decoder(fault),
        ProgramFault::Refused(fault) => of_verifier(fault),
    }
}

/// The verdict on a policy as C reads it.
pub fn verdict_told(verdict: Result<(), LoadError>) -> ShflVerdict
    ensures { result ≡ verdict_told verdict }
{
    let (hook, (fault, slot, register)) = match verdict {
        Ok(()) => (0, (0, 0, 0)),
        Err(LoadError::NoMemory) => (0, (255, 0, 0)),
        Err(LoadError::Bad { hook, fault }) => (hook_told(hook), of_program(fault)),
    };
    ShflVerdict {
        slot,
        fault,
        hook,
        register,
    }
}
