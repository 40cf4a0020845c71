//! What is counted of a run.
ghost use Rattle.std.specs.Prelude.{◌≡◌};
ghost use Rattle.sim_model.specs.Counts as sums;

use crate::steps::Made;
use shfl_core::{Access, Ask, Nap, Phase, Word};
use sim_setup::{Reach, plus};

/// How many accesses were hits, came from the core's socket, and came from another.
#[derive(Clone, Copy, Drop)]
pub struct Reaches {
    pub hits: u64,
    pub near: u64,
    pub far: u64,
}

/// What is counted of all passes.
#[derive(Clone, Copy, Drop)]
pub struct Counts {
    pub steps: u64,
    /// The rounds of shuffling that began.
    pub rounds: u64,
    /// The questions, and those answered with yes.
    pub asked: u64,
    pub yes: u64,
    /// The instructions of the policy's programs that were run.
    pub insns: u64,
    /// How often a waiter was moved up.
    pub relinks: u64,
    /// How often a waiter went to sleep, and how often one was woken.
    pub parks: u64,
    pub rings: u64,
    pub lock: Reaches,
    pub tail: Reaches,
    pub node: Reaches,
    pub data: Reaches,
    /// The accesses to the lock word of attempts in vain.
    pub tried: Reaches,
}

/// What is counted of one pass.
#[derive(Clone, Copy, Drop)]
pub struct Served {
    pub gained: u64,
    pub reads: u64,
    /// How often it took the lock past the queue.
    pub stolen: u64,
    /// The sum of its waits, and the longest.
    pub waited: u64,
    pub longest: u64,
    /// The most later calls that gained during one of its waits.
    pub overtaken: u64,
    /// Whether it waits, since when, and how many later calls have gained since.
    pub waits: bool,
    pub called: u64,
    pub passed: u64,
}

/// Nothing is counted yet.
pub const UNSERVED: Served = Served {
    gained: 0,
    reads: 0,
    stolen: 0,
    waited: 0,
    longest: 0,
    overtaken: 0,
    waits: false,
    called: 0,
    passed: 0,
};

/// The order in which passes gained.
#[derive(Clone, Copy, Drop)]
pub struct Order {
    pub gained: u64,
    /// How often the gain before was of the same socket.
    pub same: u64,
    /// The socket of the last gain.
    pub last: Option<u16>,
    /// FNV-1a of the passes' numbers, with one multiplication for each (Fowler, Noll and Vo, 1991).
    pub hash: u64,
    /// The first sixteen.
    pub first: [u32; 16],
}

/// One access more.
#[inline(always)]
pub fn reached(reaches: Reaches, reach: Reach) -> Reaches
    ensures { result ≡ sums.reached reaches reach }
{
    let Reaches { hits, near, far } = reaches;
    match reach {
        Reach::Hit => Reaches {
            hits: plus(hits, 1),
            near,
            far,
        },
        Reach::Near => Reaches {
            hits,
            near: plus(near, 1),
            far,
        },
        Reach::Far => Reaches {
            hits,
            near,
            far: plus(far, 1),
        },
    }
}

/// One access to a word more.
#[inline(always)]
#[tactic(auto, unfolding(crate::specs::Counts::with_access))]
pub fn count_access(counts: &mut Counts, word: Word, reach: Reach)
    ensures { counts.new ≡ sums.with_access counts.old word reach }
{
    match word {
        Word::Lock => counts.lock = reached(counts.lock, reach),
        Word::Tail => counts.tail = reached(counts.tail, reach),
        _ => counts.node = reached(counts.node, reach),
    }
}

#[inline(always)]
fn plus_if(n: u64, test: bool) -> u64
    ensures { result ≡ sums.plus_if n test }
{
    if test { plus(n, 1) } else { n }
}

#[inline(always)]
fn is_skip(ask: Ask) -> bool
    ensures { result ≡ sums.is_skip ask }
{
    matches!(ask, Ask::Skip { .. })
}

#[inline(always)]
fn is_asked(ask: Ask) -> bool
    ensures { result ≡ sums.is_asked ask }
{
    !matches!(ask, Ask::Nothing)
}

#[inline(always)]
fn is_relink(made: &Made) -> bool
    ensures { result ≡ sums.is_relink made.now }
{
    matches!(made.before.phase, Phase::Place) && matches!(made.before.nap, Nap::Awake)
}

#[inline(always)]
fn is_park(made: &Made) -> bool
    ensures { result ≡ sums.is_park made.now }
{
    matches!(made.before.nap, Nap::Doze) && matches!(made.after.nap, Nap::Hear)
}

#[inline(always)]
fn is_ring(access: Access) -> bool
    ensures { result ≡ sums.is_ring access }
{
    match access {
        Access::Store {
            w: Word::Bell(_),
            v: _,
        } => true,
        _ => false,
    }
}

/// One step more.
#[inline(always)]
#[tactic(auto, unfolding(crate::specs::Counts::with_step))]
pub fn count_step(counts: &mut Counts, made: &Made)
    ensures { counts.new ≡ sums.with_step counts.old made.now }
{
    counts.steps = plus(counts.steps, 1);
    counts.rounds = plus_if(counts.rounds, is_skip(made.ask));
    counts.asked = plus_if(counts.asked, is_asked(made.ask));
    counts.yes = plus_if(counts.yes, made.advice.yes);
    counts.insns = plus(counts.insns, made.advice.insns);
    counts.relinks = plus_if(counts.relinks, is_relink(made));
    counts.parks = plus_if(counts.parks, is_park(made));
    counts.rings = plus_if(counts.rings, is_ring(made.access));
}
