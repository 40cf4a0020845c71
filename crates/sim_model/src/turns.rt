//! When each pass has its next turn, and whose turn it is.
ghost use Rattle.std.specs.Prelude.{◌≡◌, ◌<◌, ◌≤◌, IfSome, slice_set};
ghost use Rattle.sim_model.specs.Turns as turns;

use sim_setup::{PASSES, later};

/// What a pass does at its turn.
#[derive(Clone, Copy, Drop)]
pub enum Turn {
    /// It has made so many attempts in vain, and makes one more where it may; else it asks for the lock, and makes its first step.
    Call { tried: u32 },
    /// It makes its next step.
    Step,
    /// It has the lock, taken past the queue or not, and touches the data.
    Gain { stolen: bool },
    /// It gives the lock back: the first step of that.
    Free,
}

/// How a pass stands between its turns.
#[derive(Clone, Copy, Drop)]
pub enum Stand {
    /// Its turn comes at this time.
    Due { at: u64, turn: Turn },
    /// It looks at a word of this line over and over, and has done so until this time.
    Spins { line: usize, since: u64 },
    /// It sleeps, and can't be woken before this time.
    Sleeps { from: u64 },
}

/// A pass whose turn comes, and when.
#[derive(Clone, Copy, Drop)]
pub struct Entry {
    pub at: u64,
    pub pass: u32,
    pub turn: Turn,
}

/// How the pass stands; one that isn't there sleeps.
#[inline(always)]
pub fn stand_at(stands: &[Stand; PASSES], pass: u32) -> Stand
    ensures { result ≡ turns.stand_at stands.now pass }
{
    if pass < 1024 {
        stands[pass as usize]
    } else {
        Stand::Sleeps { from: 0 }
    }
}

/// Lets the pass stand so, where it is there.
#[inline(always)]
pub fn put_stand(stands: &mut [Stand; PASSES], pass: u32, stand: Stand)
    ensures { stands.new ≡ slice_set stands.old pass stand }
{
    if pass < 1024 {
        stands[pass as usize] = stand;
    }
}

// The sooner of what was found and the turn of one pass more; of two at a time the first that was found.
#[inline(always)]
fn sooner(found: Option<Entry>, pass: u32, stand: Stand) -> Option<Entry>
    ensures { result ≡ turns.sooner found pass stand }
{
    match stand {
        Stand::Due { at, turn } => match found {
            Some(entry) if entry.at <= at => Some(entry),
            _ => Some(Entry { at, pass, turn }),
        },
        _ => found,
    }
}

/// The soonest turn of the first so many passes; of two at one time that of the lower pass.
pub fn soonest(stands: &[Stand; PASSES], passes: u32) -> Option<Entry>
    requires { passes ≤ 1024 }
    ensures soonest { result ≡ turns.soonest stands.now passes }
    ensures declared { IfSome result (λ e. e.pass < passes) }
{
    let mut found = None;
    for pass in 0..passes {
        found = sooner(found, pass, stand_at(stands, pass));
    }
    found
}

// How a pass stands after a word of the line was written by an access that ended then.
#[inline(always)]
fn woken(line: usize, ends: u64, stand: Stand) -> Stand
    ensures { result ≡ turns.woken line ends stand }
{
    match stand {
        Stand::Spins { line: own, since } if own == line => Stand::Due {
            at: later(ends, since),
            turn: Turn::Step,
        },
        _ => stand,
    }
}

/// Whoever of the first so many passes spins on the line looks again, once the access and its own last look have ended.
pub fn wake_line(stands: &mut [Stand; PASSES], passes: u32, line: usize, ends: u64)
    ensures { stands.new ≡ turns.all_woken passes line ends stands.old }
{
    for pass in 0..passes {
        let stand = woken(line, ends, stand_at(stands, pass));
        put_stand(stands, pass, stand);
    }
}
