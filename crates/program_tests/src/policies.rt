//! Policies and what they answer.
use crate::checks::{holds, is_told, same};
use bpf_isa::{IsaError, Profile};
use bpf_verifier::Refusal;
use policy_source::PolicySource;
use shfl_line::{Attr, Chooser};
use shfl_policy::{Hook, LoadError, Policy, ProgramFault, context, load};
use std::alloc::Global;
use std::process::Abort;

const EXIT: u64 = 0x9500_0000_0000_0000;

/// Yes where the sockets are the same.
const SAME_SOCKET: [u64; 5] = [
    0x6112_0000_0000_0000,
    0x6111_0400_0000_0000,
    0xb700_0000_0100_0000,
    0x1d21_0100_0000_0000,
    0xb700_0000_0000_0000,
];

/// The waiter's socket.
const WAITER_SOCKET: [u64; 1] = [0x6110_0400_0000_0000];

/// The batch.
const BATCH: [u64; 1] = [0x6110_2000_0000_0000];

/// Register 2 is read before it is written.
const NO_VALUE: [u64; 1] = [0xbf20_0000_0000_0000];

/// No such opcode.
const BAD_OPCODE: [u64; 1] = [0x8500_0000_0100_0000];

/// The program of these slots and a last one, which exits.
fn program(rt: &impl Abort, alloc: Global, slots: &[u64]) -> Option<Vec<u8>> {
    let mut bytes = Vec::new(alloc);
    for slot in slots {
        bytes
            .extend_from_slice(&slot.to_be_bytes())
            .expect(rt, "memory");
    }
    bytes
        .extend_from_slice(&EXIT.to_be_bytes())
        .expect(rt, "memory");
    Some(bytes)
}

fn loaded(
    alloc: Global,
    should: Option<Vec<u8>>,
    skip: Option<Vec<u8>>,
) -> Result<Policy, LoadError> {
    load(alloc, 3, Profile::One, &PolicySource { should, skip })
}

/// The policy of these programs.
fn policy_of(
    rt: &impl Abort,
    alloc: Global,
    should: Option<Vec<u8>>,
    skip: Option<Vec<u8>>,
) -> Policy {
    loaded(alloc, should, skip).expect(rt, "a policy")
}

fn attr(socket: u16) -> Attr {
    Attr {
        socket,
        prio: 2,
        class: 3,
        kind: 4,
    }
}

const ANCHOR: Attr = Attr {
    socket: 0x0102,
    prio: 0x0304,
    class: 0x0506,
    kind: 0x0708,
};

const WAITER: Attr = Attr {
    socket: 0x1112,
    prio: 0x1314,
    class: 0x1516,
    kind: 0x1718,
};

/// The context of the two, with the batch number 1023.
const CONTEXT: [u8; 40] = [
    0x02, 0x01, 0, 0, 0x12, 0x11, 0, 0, 0x04, 0x03, 0, 0, 0x14, 0x13, 0, 0, 0x06, 0x05, 0, 0, 0x16,
    0x15, 0, 0, 0x08, 0x07, 0, 0, 0x18, 0x17, 0, 0, 0xff, 0x03, 0, 0, 0, 0, 0, 0,
];

#[test]
fn the_context_has_the_anchor_and_then_the_waiter(rt: HostRuntime) {
    same(&rt, &context(&ANCHOR, &WAITER, 1023), &CONTEXT);
}

#[test]
fn a_policy_answers_by_its_program(rt: HostRuntime) {
    let alloc = rt.alloc();
    let policy = policy_of(&rt, alloc, program(&rt, alloc, &SAME_SOCKET), None);
    let mut running = policy.running();
    holds(&rt, running.should(&attr(5), &attr(5), 1));
    holds(&rt, !running.should(&attr(5), &attr(6), 1));
    holds(&rt, !running.skip(&attr(5), 1));
}

#[test]
fn skip_sees_a_waiter_of_zeros(rt: HostRuntime) {
    let alloc = rt.alloc();
    let policy = policy_of(&rt, alloc, None, program(&rt, alloc, &WAITER_SOCKET));
    let mut running = policy.running();
    holds(&rt, !running.skip(&attr(5), 1));
    holds(&rt, !running.should(&attr(5), &attr(5), 1));
    let capped = policy_of(&rt, alloc, None, program(&rt, alloc, &BATCH));
    let mut asking = capped.running();
    holds(&rt, asking.skip(&attr(5), 7));
    holds(&rt, !asking.skip(&attr(5), 0));
}

/// The policy with this program to say whom to move up, and with one of an unknown opcode to skip, is refused so.
fn is_refused(rt: &impl Abort, alloc: Global, should: &[u64], hook: Hook, fault: ProgramFault) {
    let skip = program(rt, alloc, &BAD_OPCODE);
    let refusal = loaded(alloc, program(rt, alloc, should), skip).err();
    same(rt, &refusal, &Some(LoadError::Bad { hook, fault }));
}

#[test]
fn the_first_bad_program_is_named(rt: HostRuntime) {
    let alloc = rt.alloc();
    let refused = ProgramFault::Refused(Refusal::NoValue { slot: 0, reg: 2 });
    is_refused(&rt, alloc, &NO_VALUE, Hook::Should, refused);
    let unknown = ProgramFault::Isa(IsaError::BadOpcode { slot: 0 });
    is_refused(&rt, alloc, &BATCH, Hook::Skip, unknown);
}

#[test]
fn a_copy_is_the_same_policy(rt: HostRuntime) {
    let alloc = rt.alloc();
    let should = program(&rt, alloc, &SAME_SOCKET);
    let policy = policy_of(&rt, alloc, should, program(&rt, alloc, &BATCH));
    let copy = policy.copy(alloc).expect(&rt, "memory");
    holds(&rt, policy.same(&copy));
    let other = policy_of(&rt, alloc, program(&rt, alloc, &SAME_SOCKET), None);
    holds(&rt, !policy.same(&other));
}

const UNDECODED: LoadError = LoadError::Bad {
    hook: Hook::Should,
    fault: ProgramFault::Isa(IsaError::Empty),
};

const REFUSED: LoadError = LoadError::Bad {
    hook: Hook::Skip,
    fault: ProgramFault::Refused(Refusal::BadLoad { slot: 3 }),
};

/// What is told of `REFUSED`.
const REFUSED_TOLD: &str = "in the program skip: the load in slot 3 doesn't read the context";

#[test]
fn each_fault_is_told(rt: HostRuntime) {
    let alloc = rt.alloc();
    is_told(
        &rt,
        alloc,
        &UNDECODED,
        "in the program should: no instructions",
    );
    is_told(&rt, alloc, &REFUSED, REFUSED_TOLD);
    is_told(&rt, alloc, &LoadError::NoMemory, "out of memory");
}
