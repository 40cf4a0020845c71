//! What a run has besides the lock: turns, lines, draws and counts.
ghost use Rattle.std.specs.Prelude.{◌≡◌, ◌≤◌};
ghost use Rattle.sim_model.specs.Openings as openings;

use crate::counts::{Counts, Order, Reaches, Served, UNSERVED};
use crate::turns::{Stand, Turn};
use sim_setup::{LINES, Layout, Line, PASSES, Setup, core_set, seeded, think};

/// What a run has besides the lock.
#[derive(Clone, Copy, Drop)]
pub struct Bench {
    pub stands: [Stand; PASSES],
    pub lines: [Line; LINES],
    /// The states of the passes' draws.
    pub draws: [u64; PASSES],
    pub counts: Counts,
    pub served: [Served; PASSES],
    pub order: Order,
}

const NONE: Reaches = Reaches {
    hits: 0,
    near: 0,
    far: 0,
};

const NOTHING: Counts = Counts {
    steps: 0,
    rounds: 0,
    asked: 0,
    yes: 0,
    insns: 0,
    relinks: 0,
    parks: 0,
    rings: 0,
    lock: NONE,
    tail: NONE,
    node: NONE,
    data: NONE,
    tried: NONE,
};

const NO_ORDER: Order = Order {
    gained: 0,
    same: 0,
    last: None,
    hash: 0xcbf2_9ce4_8422_2325,
    first: [0; 16],
};

// The first core has every line; then each has those of its own words, unless several share a line.
#[tactic(auto, unfolding(crate::specs::Openings::opening_lines))]
fn opening_lines(layout: Layout, passes: u32) -> [Line; LINES]
    requires { passes ≤ 1024 }
    ensures { result ≡ openings.opening_lines layout passes }
{
    let first = Line {
        has: core_set(0),
        free: 0,
    };
    let mut lines = [first; LINES];
    if matches!(layout, Layout::Packed) {
        return lines;
    }
    for pass in 0..passes {
        lines[pass as usize + 2] = Line {
            has: core_set(pass as usize),
            free: 0,
        };
    }
    lines
}

// Each pass thinks before its first call.
fn opening_stands(setup: &Setup) -> [Stand; PASSES]
    requires { setup.now.passes ≤ 1024 }
    ensures { result ≡ openings.stands_below setup.now setup.now.passes }
{
    let mut stands = [Stand::Sleeps { from: 0 }; PASSES];
    for pass in 0..setup.passes {
        let mut draw = seeded(setup.seed, pass);
        stands[pass as usize] = Stand::Due {
            at: think(setup.work.think, &mut draw),
            turn: Turn::Call { tried: 0 },
        };
    }
    stands
}

fn opening_draws(setup: &Setup) -> [u64; PASSES]
    requires { setup.now.passes ≤ 1024 }
    ensures { result ≡ openings.draws_below setup.now setup.now.passes }
{
    let mut draws = [0; PASSES];
    for pass in 0..setup.passes {
        let mut draw = seeded(setup.seed, pass);
        think(setup.work.think, &mut draw);
        draws[pass as usize] = draw;
    }
    draws
}

#[tactic(auto, unfolding(crate::specs::Openings::opening_served))]
fn opening_served() -> [Served; PASSES]
    ensures { result ≡ openings.opening_served }
{
    [UNSERVED; PASSES]
}

/// The opening of a run.
pub fn opening(setup: &Setup) -> Bench
    requires { setup.now.passes ≤ 1024 }
    ensures { result ≡ openings.opening_bench setup.now }
{
    Bench {
        stands: opening_stands(setup),
        lines: opening_lines(setup.layout, setup.passes),
        draws: opening_draws(setup),
        counts: NOTHING,
        served: opening_served(),
        order: NO_ORDER,
    }
}
