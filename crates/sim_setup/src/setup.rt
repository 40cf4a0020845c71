//! What a run is set up with: what an access costs, what the passes do, and on which cores they run.
ghost use Rattle.std.specs.Prelude.{◌≡◌, ◌<◌, ◌≤◌, length};
ghost use Rattle.sim_setup.specs.Cores as sockets;

use crate::sets::{NO_CORES, SET_WORDS, add_core, core_set};
use shfl_core::Rules;
use shfl_line::Attr;

/// The most passes that a lock has.
pub const PASSES: usize = 1024;

/// What each part of a step costs, in ticks; by convention a tick is a nanosecond.
#[derive(Clone, Copy, Drop)]
pub struct Costs {
    /// An access to a line that the core has.
    pub hit: u32,
    /// One to a line that another core of the socket has.
    pub near: u32,
    /// One to a line that only other sockets have.
    pub far: u32,
    /// How long a line that was lent to be read can't be lent again.
    pub port: u32,
    /// What an access that isn't a load costs besides.
    pub atomic: u32,
    /// What a step costs besides its access.
    pub local: u32,
    /// A question to the policy.
    pub ask: u32,
    /// One instruction of a policy's program.
    pub insn: u32,
    /// From a pass's decision to park until it can be woken.
    pub park: u32,
    /// What waking costs the pass that wakes.
    pub wake: u32,
    /// From waking until the woken pass runs.
    pub rise: u32,
}

/// What each pass does over and over.
#[derive(Clone, Copy, Drop)]
pub struct Work {
    /// For how many ticks it holds the lock, its accesses to the data not counted.
    pub hold: u32,
    /// How many lines of data it touches under the lock.
    pub lines: u32,
    /// The middle of the ticks between two calls.
    pub think: u32,
    /// Of a thousand calls how many read, in a form with readers.
    pub reads: u32,
}

/// How often a pass that calls tries to take the lock before it queues.
#[derive(Clone, Copy, Drop)]
pub struct Tries {
    /// The most attempts of a call; with none it queues at once, where its first step doesn't find the lock free.
    pub most: u32,
    /// The ticks from the first attempt to the next, its operation not counted. After the second they are twice as many, after the
    /// third four times, and after each further one eight times.
    pub pause: u32,
}

/// Which words share a cache line.
#[derive(Clone, Copy, Drop)]
pub enum Layout {
    /// Each has a line of its own.
    Padded,
    /// The lock word and the tail word share one.
    Joined,
    /// Eight words a line: lock and tail, and then the four words of each pass.
    Packed,
}

/// The core on which a pass runs.
#[derive(Clone, Copy, Drop)]
pub struct Core {
    /// The attributes of its pass; the socket is one of them.
    pub attr: Attr,
    /// The set of this core.
    pub own: [u64; SET_WORDS],
    /// The cores of its socket, this one among them.
    pub mates: [u64; SET_WORDS],
}

/// What a run is set up with.
#[derive(Clone, Copy, Drop)]
pub struct Setup {
    pub rules: Rules,
    pub layout: Layout,
    pub costs: Costs,
    pub work: Work,
    pub tries: Tries,
    /// The last tick of the run.
    pub until: u64,
    pub seed: u64,
    /// How many passes there are, 1 to 1,024.
    pub passes: u32,
    pub cores: [Core; PASSES],
}

const NO_CORE: Core = Core {
    attr: Attr {
        socket: 0,
        prio: 0,
        class: 0,
        kind: 0,
    },
    own: NO_CORES,
    mates: NO_CORES,
};

fn attr_at(attrs: &[Attr], pass: usize) -> Attr
    requires { pass < length attrs.now }
    ensures { result ≡ sockets.attr_at attrs.now pass }
{
    attrs[pass]
}

// Whether two passes run on one socket.
fn is_mate(attrs: &[Attr], pass: usize, other: usize) -> bool
    requires pass { pass < length attrs.now }
    requires other { other < length attrs.now }
    ensures { result ≡ sockets.is_mate attrs.now pass other }
{
    attr_at(attrs, other).socket == attr_at(attrs, pass).socket
}

// The set of the cores on the socket of the pass.
fn mates(attrs: &[Attr], pass: usize) -> [u64; SET_WORDS]
    requires pass { pass < length attrs.now }
    requires few { length attrs.now ≤ 1024 }
    ensures { result ≡ sockets.mates attrs.now pass (length attrs.now) }
{
    let mut set = NO_CORES;
    for other in 0..attrs.len() {
        if is_mate(attrs, pass, other) {
            add_core(&mut set, other);
        }
    }
    set
}

fn core_of(attrs: &[Attr], pass: usize) -> Core
    requires pass { pass < length attrs.now }
    requires few { length attrs.now ≤ 1024 }
    ensures { result ≡ sockets.core_of attrs.now pass }
{
    Core {
        attr: attr_at(attrs, pass),
        own: core_set(pass),
        mates: mates(attrs, pass),
    }
}

/// The cores of passes with these attributes.
pub fn cores_of(attrs: &[Attr]) -> [Core; PASSES]
    requires few { length attrs.now ≤ 1024 }
    ensures { result ≡ sockets.cores_below attrs.now (length attrs.now) }
{
    let mut cores = [NO_CORE; PASSES];
    for pass in 0..attrs.len() {
        cores[pass] = core_of(attrs, pass);
    }
    cores
}
