//! The texts of a line report's parts, written behind what stands there, within the room.
ghost use Rattle.std.specs.Prelude.{◌+◌, ◌*◌, ◌++◌, length, map, codes, decimal};
ghost use Rattle.shfl_sched.specs.ReportParts.{act_text, answer_text, mode_text, hand_text, role_text, listed, holder_text, waiter_text};
ghost use Rattle.shfl_sched.specs.Room.{Puts};

use crate::room::{put, put_number};
use crate::schedule::Act;
use shfl_line::{Mode, Role};

// Each of the next three writes pieces whose lengths are known where it is compiled, so that they are stored and not copied.

/// Writes the act between blanks.
pub fn put_act(out: &mut Vec<u8>, act: Act)
    ensures { Puts out.old out.new (codes " " ++ act_text act ++ codes " ") 7 }
{
    match act {
        Act::Write => put(out, b" write "),
        Act::Read => put(out, b" read "),
        Act::Free => put(out, b" free "),
        Act::Step => put(out, b" step "),
    }
}

/// Writes the answer behind a blank.
pub fn put_answer(out: &mut Vec<u8>, admitted: bool)
    ensures { Puts out.old out.new (codes " " ++ answer_text admitted) 4 }
{
    if admitted {
        put(out, b" yes")
    } else {
        put(out, b" no")
    }
}

fn put_mode(out: &mut Vec<u8>, mode: Mode)
    ensures { Puts out.old out.new (mode_text mode) 1 }
{
    match mode {
        Mode::Write => put(out, b"w"),
        Mode::Read => put(out, b"r"),
    }
}

fn put_holder(out: &mut Vec<u8>, holder: (u32, Mode))
    ensures { Puts out.old out.new (holder_text holder) 21 }
{
    put_mode(out, holder.1);
    put_number(out, u64::from(holder.0));
}

/// The holders, with commas between them.
pub fn put_hold(out: &mut Vec<u8>, hold: &[(u32, Mode)])
    ensures { Puts out.old out.new (listed (map holder_text hold.now)) (1 + 22 * length hold.now) }
{
    let Some((first, others)) = hold.split_first() else {
        return put(out, b"-");
    };
    put_holder(out, *first);
    for holder in others {
        put(out, b",");
        put_holder(out, *holder);
    }
}

fn put_waiter(out: &mut Vec<u8>, marks: &[u16], pass: u32)
    ensures { Puts out.old out.new (waiter_text marks.now pass) 41 }
{
    let place = pass as usize;
    let mark = if place < marks.len() { marks[place] } else { 0 };
    put_number(out, u64::from(pass));
    put(out, b":");
    put_number(out, u64::from(mark));
}

/// The waiters with their batch numbers, with commas between them.
pub fn put_queue(out: &mut Vec<u8>, marks: &[u16], line: &[u32])
    ensures { Puts out.old out.new
        (listed (map (waiter_text marks.now) line.now)) (1 + 42 * length line.now) }
{
    let Some((first, others)) = line.split_first() else {
        return put(out, b"-");
    };
    put_waiter(out, marks, *first);
    for pass in others {
        put(out, b",");
        put_waiter(out, marks, *pass);
    }
}

/// The passes, with commas between them.
pub fn put_passes(out: &mut Vec<u8>, passes: &[u32])
    ensures { Puts out.old out.new (listed (map decimal passes.now)) (1 + 21 * length passes.now) }
{
    let Some((first, others)) = passes.split_first() else {
        return put(out, b"-");
    };
    put_number(out, u64::from(*first));
    for pass in others {
        put(out, b",");
        put_number(out, u64::from(*pass));
    }
}

/// The detached waiter.
pub fn put_hand(out: &mut Vec<u8>, hand: Option<u32>)
    ensures { Puts out.old out.new (hand_text hand) 20 }
{
    match hand {
        None => put(out, b"-"),
        Some(pass) => put_number(out, u64::from(pass)),
    }
}

/// The shuffler.
pub fn put_role(out: &mut Vec<u8>, role: Role)
    ensures { Puts out.old out.new (role_text role) 25 }
{
    match role {
        Role::Nobody => put(out, b"-"),
        Role::Rest(pass) => {
            put(out, b"rest:");
            put_number(out, u64::from(pass));
        }
        Role::Walk(pass) => {
            put(out, b"walk:");
            put_number(out, u64::from(pass));
        }
    }
}
