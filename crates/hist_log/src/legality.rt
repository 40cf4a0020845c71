//! Whether a history is one that the object answers so.
ghost use Rattle.std.specs.Prelude.{◌≡◌, ◌≤◌, ◌+◌, ◌↔◌, IsTrue, All, length};
ghost use Rattle.hist_log.specs.History.{operations, state_left, IsLegal};

use crate::entry::Entry;
use crate::object::Object;

/// Does the calls of the entries on the object, and answers whether each reply is the object's.
/// Takes no memory.
pub fn legal<O: Object>(object: &mut O, entries: &[Entry<O>]) -> bool
    requires spare { length entries.now ≤ O.spare object.old }
    requires admitted { All (λ e. O.admits (O.state_numbers object.old) (O.call_numbers e.call))
        entries.now }
    ensures legal { IsTrue result
        ↔ IsLegal O.reply_at O.state_after (O.state_numbers object.old)
        (operations O.call_numbers O.reply_numbers entries.now) }
    ensures state { O.state_numbers object.new
        ≡ state_left O.state_after (O.state_numbers object.old)
        (operations O.call_numbers O.reply_numbers entries.now) }
    ensures spare { O.spare object.new + length entries.now ≡ O.spare object.old }
{
    let mut legal = true;
    for entry in entries {
        let reply = object.apply(&entry.call);
        legal = legal && reply == entry.reply;
    }
    legal
}
