//! What changes from one row to the next.
ghost use Rattle.std.specs.Prelude.{◌≡◌};
ghost use Rattle.line_picture.specs.Reports.{state_said};
ghost use Rattle.line_picture.specs.Changes.{is_same_state, quiet_state};

use crate::report::State;
use doc_text::is_same;
use shfl_line::LockWord;

/// Whether the two show the same.
pub fn is_same_state(one: State<'_>, other: State<'_>) -> bool
    ensures { result ≡ is_same_state (state_said one.entry) (state_said other.entry) }
{
    one.lock.pack() == other.lock.pack()
        && is_same(one.holders, other.holders)
        && is_same(one.queue, other.queue)
        && is_same(one.detached, other.detached)
        && is_same(one.shuffler, other.shuffler)
        && is_same(one.asleep, other.asleep)
}

/// A lock that nobody holds, waits for or shuffles.
pub fn quiet_state<'a>() -> State<'a>
    ensures { state_said result ≡ quiet_state }
{
    let none = b"-";
    State {
        lock: LockWord {
            held: false,
            closed: false,
            readers: 0,
        },
        holders: none,
        queue: none,
        detached: none,
        shuffler: none,
        asleep: none,
    }
}
