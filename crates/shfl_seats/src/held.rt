//! The locks that a seat holds, each with its mode: none, or one alone, which is told without a list; or those of a list.
ghost use Rattle.std.specs.Prelude.{◌≡◌, ◌≢◌, ◌≤◌, ◌<◌, ℕ, true, false, [], ◌∷◌, cond, Some, None, vec_len, vec_capacity};
ghost use Rattle.shfl_arena.specs.Threads.{mode_held, without_lock};
ghost use Rattle.shfl_seats.specs.Listed.{LeavesEmpty, TellsNoPass, alone, listed, won};
ghost use Rattle.shfl_seats.specs.declared.held.Stand.TheVariants.{InList};

use shfl_line::Mode;

/// What a seat holds, as far as it is told without the list. Of all but the last the seat has no step to make, and the list is empty.
#[derive(Clone, Copy, Drop)]
pub(crate) enum Stand {
    /// It holds nothing, and its pass is as one that did nothing: the next attempt is spared blanking it.
    Bare,
    /// It holds nothing.
    Idle,
    /// It holds this lock alone, as a writer, by an attempt that won: it becomes bare when it gives the lock back.
    Writes { lock: u32 },
    /// It holds this lock alone, as a writer.
    Owns { lock: u32 },
    /// It holds this lock alone, as a reader.
    Reads { lock: u32 },
    /// It holds what the list says.
    InList,
}

// How this list says that the lock is held.
fn mode_in(others: &[(u32, Mode)], lock: u32) -> Option<Mode>
    ensures { result ≡ mode_held lock others.now }
{
    for entry in others {
        if entry.0 == lock {
            return Some(entry.1);
        }
    }
    None
}

fn only(is: bool, mode: Mode) -> Option<Mode>
    ensures { result ≡ cond is (Some mode) None }
{
    if is { Some(mode) } else { None }
}

/// How the lock is held, if it is.
pub(crate) fn mode_of(stand: Stand, others: &[(u32, Mode)], lock: u32) -> Option<Mode>
    ensures { result ≡ mode_held lock (listed stand others.now) }
{
    match stand {
        Stand::Bare | Stand::Idle => None,
        Stand::Writes { lock: one } | Stand::Owns { lock: one } => only(one == lock, Mode::Write),
        Stand::Reads { lock: one } => only(one == lock, Mode::Read),
        Stand::InList => mode_in(others, lock),
    }
}

/// The lock alone is held, by an attempt that won.
#[inline(always)]
pub(crate) fn won(lock: u32, mode: Mode) -> Stand
    ensures { result ≡ won lock mode }
{
    match mode {
        Mode::Write => Stand::Writes { lock },
        Mode::Read => Stand::Reads { lock },
    }
}

// The lock alone is held.
fn alone(lock: u32, mode: Mode) -> Stand
    ensures { result ≡ alone lock mode }
{
    match mode {
        Mode::Write => Stand::Owns { lock },
        Mode::Read => Stand::Reads { lock },
    }
}

/// Puts what is held into the list, with room for one more. False, and nothing changes: there is no memory.
pub(crate) fn spread(stand: &mut Stand, others: &mut Vec<(u32, Mode)>) -> bool
    requires empty { LeavesEmpty stand.old others.old.items }
    ensures items { listed stand.new others.new.items ≡ listed stand.old others.old.items }
    ensures ok { result ≡ true
        → (stand.new ≡ InList) × (vec_len others.new < vec_capacity others.new) }
    ensures refused { result ≡ false
        → (stand.new ≡ stand.old) × (others.new.items ≡ others.old.items) }
{
    if others.reserve(2).is_err() {
        return false;
    }
    match *stand {
        Stand::Writes { lock } | Stand::Owns { lock } => others.push_reserved((lock, Mode::Write)),
        Stand::Reads { lock } => others.push_reserved((lock, Mode::Read)),
        Stand::Bare | Stand::Idle | Stand::InList => {}
    }
    *stand = Stand::InList;
    true
}

/// Tells without the list what a list of one or none says.
pub(crate) fn gather(stand: &mut Stand, others: &mut Vec<(u32, Mode)>)
    requires list { stand.old ≡ InList }
    ensures items { listed stand.new others.new.items ≡ others.old.items }
    ensures empty { LeavesEmpty stand.new others.new.items }
    ensures pass { TellsNoPass stand.new }
{
    if others.len() > 1 {
        return;
    }
    *stand = match others.pop() {
        None => Stand::Idle,
        Some((lock, mode)) => alone(lock, mode),
    };
}

// The list without this lock.
fn leave_out(others: &mut Vec<(u32, Mode)>, lock: u32)
    ensures items { others.new.items ≡ without_lock lock others.old.items }
    ensures len { vec_len others.new ≤ vec_len others.old }
    ensures capacity { vec_capacity others.new ≡ vec_capacity others.old }
{
    others.retain(|x| x.0 != lock);
}

// The list that says of this lock how it is held, if it is.
fn list_hold(others: &mut Vec<(u32, Mode)>, lock: u32, hold: Option<Mode>)
    requires room { vec_len others.old < vec_capacity others.old }
    ensures here { mode_held lock others.new.items ≡ hold }
    ensures elsewhere { (l : ℕ) → l ≢ lock
        → mode_held l others.new.items ≡ mode_held l others.old.items }
{
    leave_out(others, lock);
    if let Some(mode) = hold {
        others.push_reserved((lock, mode));
    }
}

// What of one lock is left where another one, or the same, is held no more.
fn one_left(one: u32, mode: Mode, lock: u32) -> Stand
    ensures items { listed result [] ≡ without_lock lock ((one, mode) ∷ []) }
    ensures empty { LeavesEmpty result [] }
    ensures pass { TellsNoPass result }
{
    if one == lock {
        return Stand::Idle;
    }
    alone(one, mode)
}

/// The lock is held no more.
pub(crate) fn forget(stand: &mut Stand, others: &mut Vec<(u32, Mode)>, lock: u32)
    requires empty { LeavesEmpty stand.old others.old.items }
    ensures items { listed stand.new others.new.items
        ≡ without_lock lock (listed stand.old others.old.items) }
    ensures empty { LeavesEmpty stand.new others.new.items }
    ensures pass { TellsNoPass stand.new }
{
    match *stand {
        Stand::Bare | Stand::Idle => *stand = Stand::Idle,
        Stand::Writes { lock: one } | Stand::Owns { lock: one } => {
            *stand = one_left(one, Mode::Write, lock);
        }
        Stand::Reads { lock: one } => *stand = one_left(one, Mode::Read, lock),
        Stand::InList => {
            leave_out(others, lock);
            gather(stand, others);
        }
    }
}

/// Notes how a lock is held, if it is.
pub(crate) fn note(stand: &mut Stand, others: &mut Vec<(u32, Mode)>, lock: u32, hold: Option<Mode>)
    requires list { stand.old ≡ InList }
    requires room { vec_len others.old < vec_capacity others.old }
    ensures here { mode_held lock (listed stand.new others.new.items) ≡ hold }
    ensures elsewhere { (l : ℕ) → l ≢ lock → mode_held l (listed stand.new others.new.items)
        ≡ mode_held l others.old.items }
    ensures empty { LeavesEmpty stand.new others.new.items }
    ensures pass { TellsNoPass stand.new }
{
    list_hold(others, lock, hold);
    gather(stand, others);
}
