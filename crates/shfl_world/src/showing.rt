//! How a lawful lock shows its line state: one scan of its passes, and one walk along its queue.
ghost use Rattle.std.specs.Prelude.{◌≡◌, ℕ, ◌<◌, ◌≤◌, [], ◌∷◌, ◌++◌, cond, length};
ghost use Rattle.shfl_core.specs.declared.words.Word.TheVariants.{State};
ghost use Rattle.shfl_core.specs.Phases as phases;
ghost use Rattle.shfl_core.specs.ShownLine.{shown_line, head_of, successor_of, role_of};
ghost use Rattle.shfl_core.specs.Words.{look, most_passes};
ghost use Rattle.shfl_line.specs.Line.{empty, holds};
ghost use Rattle.shfl_line.specs.Words.{state_of};
ghost use Rattle.shfl_world.specs.LawfulLock.{IsLawfulLock, HasFewPasses};
ghost use Rattle.shfl_world.specs.Showing.{Finds, FindsAll};

use crate::glance::Glance;
use crate::phases::is_holding;
use crate::sight::Sight;
use shfl_core::{PassState, Word};
use shfl_line::{LineState, NodeState, Role};

fn count_of<S: Sight>(lock: &S) -> u32
    requires { IsLawfulLock (S.meaning lock.now) }
    ensures count { result ≡ length (S.meaning lock.now).world.passes }
    ensures few { result ≤ most_passes }
{
    lock.passes() as u32
}

// What the state word of a pass says.
fn node_of<S: Sight>(lock: &S, pass: u32) -> NodeState
    requires lawful { IsLawfulLock (S.meaning lock.now) }
    requires declared { pass < length (S.meaning lock.now).world.passes }
    ensures { result ≡ state_of (look (S.meaning lock.now).world.words (State pass)) }
{
    NodeState::unpack(lock.says(Word::State(pass)))
}

// Shows a pass that holds.
fn show_holder(out: &mut LineState, pass: u32, own: PassState)
    requires named { pass < length out.old.mark }
    requires above { (q : ℕ) → 0 < holds q out.old.hold → q < pass }
    ensures { out.new ≡ record out.old {
      hold = out.old.hold ++ cond (phases.is_holding own.phase) ((pass, own.reg.mode) ∷ []) [];
    } }
{
    if is_holding(own.phase) {
        out.add_hold(pass, own.reg.mode);
    }
}

// Shows the holders, and finds by whom the rest is shown. What is found is written in place, since a move of it would be a copy.
fn scan<S: Sight>(lock: &S, out: &mut LineState, found: &mut Glance)
    requires lawful { IsLawfulLock (S.meaning lock.now) }
    requires few { HasFewPasses (S.meaning lock.now) }
    requires blank { out.old ≡ empty (length (S.meaning lock.now).world.passes) }
    requires nobody { Finds (S.meaning lock.now).world 0 found.old }
    ensures hold { out.new
        ≡ record out.old { hold = (shown_line (S.meaning lock.now).world).hold } }
    ensures found { FindsAll (S.meaning lock.now) found.new }
{
    for pass in 0..count_of(lock) {
        let own = lock.stands(pass);
        show_holder(out, pass, own);
        found.see(pass, own, node_of(lock, pass));
    }
}

// The queue's head plus 1, or 0.
fn head<S: Sight>(lock: &S, found: &Glance) -> u64
    requires { FindsAll (S.meaning lock.now) found.now }
    ensures { result ≡ head_of (S.meaning lock.now).world }
{
    if found.granter > 0 {
        let own = lock.stands(found.granter - 1);
        return own.reg.heir as u64 + 1;
    }
    if found.fore > 0 {
        found.fore as u64
    } else {
        found.called as u64
    }
}

// The successor of a pass plus 1, or 0: whom its next word names, else who has yet to write it.
fn successor<S: Sight>(lock: &S, found: &Glance, pass: u32) -> u64
    requires lawful { IsLawfulLock (S.meaning lock.now) }
    requires few { HasFewPasses (S.meaning lock.now) }
    requires found { FindsAll (S.meaning lock.now) found.now }
    requires declared { pass < length (S.meaning lock.now).world.passes }
    ensures { result ≡ successor_of (S.meaning lock.now).world pass }
{
    let next = lock.says(Word::Next(pass));
    if next > 0 {
        next
    } else {
        found.linkers[pass as usize] as u64
    }
}

// Shows the queue from its head on, with the batch numbers.
fn show_queue<S: Sight>(lock: &S, found: &Glance, out: &mut LineState)
    requires lawful { IsLawfulLock (S.meaning lock.now) }
    requires few { HasFewPasses (S.meaning lock.now) }
    requires found { FindsAll (S.meaning lock.now) found.now }
    requires blank { out.old
        ≡ record (empty (length (S.meaning lock.now).world.passes)) { hold = out.old.hold } }
    ensures { out.new ≡ record out.old {
      line = (shown_line (S.meaning lock.now).world).line;
      mark = (shown_line (S.meaning lock.now).world).mark;
    } }
{
    let mut link = head(lock, found);
    for _ in 0..count_of(lock) {
        if link == 0 {
            return;
        }
        let pass = (link - 1) as u32;
        out.add_line(pass, node_of(lock, pass).batch);
        link = successor(lock, found, pass);
    }
}

// The detached waiter: the candidate of the pass that took it out.
fn detached<S: Sight>(lock: &S, found: &Glance) -> Option<u32>
    requires { FindsAll (S.meaning lock.now) found.now }
    ensures { result ≡ (shown_line (S.meaning lock.now).world).hand }
{
    if found.relinker > 0 {
        Some(lock.stands(found.relinker - 1).reg.cand)
    } else {
        None
    }
}

// Who shuffles: the pass in a round, else the waiter with the flag.
fn role(found: &Glance) -> Role
    ensures { result ≡ role_of found.now.walker found.now.flagged }
{
    if found.walker > 0 {
        Role::Walk(found.walker - 1)
    } else if found.flagged > 0 {
        Role::Rest(found.flagged - 1)
    } else {
        Role::Nobody
    }
}

/// Fills a state that was opened for as many passes, at most 64, with what the lock shows. The time is
/// linear in the passes.
pub fn show<S: Sight>(lock: &S, out: &mut LineState)
    requires lawful { IsLawfulLock (S.meaning lock.now) }
    requires few { HasFewPasses (S.meaning lock.now) }
    requires room { length out.old.mark ≡ length (S.meaning lock.now).world.passes }
    ensures { out.new ≡ shown_line (S.meaning lock.now).world }
{
    out.clear();
    let mut found = Glance::nobody();
    scan(lock, out, &mut found);
    show_queue(lock, &found, out);
    out.set(detached(lock, &found), role(&found));
}
