//! Cache lines: which cores have one, when it can be lent next, and what an access to it costs.
ghost use Rattle.std.specs.Prelude.{◌≡◌};
ghost use Rattle.sim_setup.specs.Lines as lines;

use crate::clock::{later, plus};
use crate::sets::{SET_WORDS, is_within, joined, meets};
use crate::setup::{Core, Costs};

/// A cache line.
#[derive(Clone, Copy, Drop)]
pub struct Line {
    /// The set of the cores that have it.
    pub has: [u64; SET_WORDS],
    /// From when on it can be lent.
    pub free: u64,
}

/// From how far away a line comes.
#[derive(Clone, Copy, Drop)]
pub enum Reach {
    Hit,
    Near,
    Far,
}

/// What an access came to: from how far the line came, when it ended, and the line then.
#[derive(Clone, Copy, Drop)]
pub struct Touched {
    pub reach: Reach,
    pub ends: u64,
    pub line: Line,
}

/// From how far away the line comes.
#[inline(always)]
pub fn reach_of(core: &Core, line: Line, load: bool) -> Reach
    ensures { result ≡ lines.reach_of core.now line load }
{
    if is_within(&line.has, &core.own) {
        return Reach::Hit;
    }
    if load {
        if meets(&line.has, &core.own) {
            return Reach::Hit;
        }
        if meets(&line.has, &core.mates) {
            return Reach::Near;
        }
        return Reach::Far;
    }
    if is_within(&line.has, &core.mates) {
        Reach::Near
    } else {
        Reach::Far
    }
}

#[inline(always)]
fn cost_of(costs: &Costs, reach: Reach, load: bool) -> u64
    ensures { result ≡ lines.cost_of costs.now reach load }
{
    let way = match reach {
        Reach::Hit => costs.hit,
        Reach::Near => costs.near,
        Reach::Far => costs.far,
    };
    let atomic = if load { 0 } else { costs.atomic };
    plus(u64::from(way), u64::from(atomic))
}

/// An access of the core that begins at this time, a load or not.
#[inline(always)]
#[tactic(auto, unfolding(crate::specs::Lines::touched))]
pub fn touch(costs: &Costs, core: &Core, load: bool, at: u64, line: Line) -> Touched
    ensures { result ≡ lines.touched costs.now core.now load at line }
{
    let reach = reach_of(core, line, load);
    let cost = cost_of(costs, reach, load);
    if matches!(reach, Reach::Hit) {
        return Touched {
            reach,
            ends: plus(at, cost),
            line,
        };
    }
    let begins = later(at, line.free);
    let ends = plus(begins, cost);
    let line = if load {
        Line {
            has: joined(&line.has, &core.own),
            free: plus(begins, u64::from(costs.port)),
        }
    } else {
        Line {
            has: core.own,
            free: ends,
        }
    };
    Touched { reach, ends, line }
}
