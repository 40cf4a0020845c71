//! Walks over the lists of a line state.
ghost use Rattle.std.specs.Prelude.{◌≡◌, ℕ, suc, ◌+◌, ◌<◌, ◌≤◌, ◌==◌, not, length, MatchOption};
ghost use Rattle.std.specs.Prelude.{slice_index};
ghost use Rattle.std.specs.List.{insert, remove};
ghost use Rattle.shfl_line.specs.Line.{holds, writer_count};
ghost use Rattle.shfl_line.specs.Passes.{times, first, last, behind, last_marked, without};
ghost use Rattle.shfl_line.specs.Passes.{put_behind};
ghost use Rattle.shfl_line.specs.Steps.{add_holder, remove_holder};
ghost use Rattle.shfl_line.specs.Tests.{is_free_for, may_detach};
ghost use Rattle.shfl_line.specs.Words.{link_word};

use crate::events::Mode;

// Whether the pass holds.
pub fn is_holder(hold: &[(u32, Mode)], pass: u32) -> bool
    ensures { result ≡ not (holds pass hold.now == 0) }
{
    for holder in hold {
        if holder.0 == pass {
            return true;
        }
    }
    false
}

// Whether a writer holds.
fn has_writer(hold: &[(u32, Mode)]) -> bool
    ensures { result ≡ not (writer_count hold.now == 0) }
{
    for holder in hold {
        if holder.1 == Mode::Write {
            return true;
        }
    }
    false
}

// Whether nobody holds who would keep a pass of this mode out.
#[tactic(auto, using(crate::proofs::Holders::holder_count))]
pub fn is_free_for(mode: Mode, hold: &[(u32, Mode)]) -> bool
    ensures { result ≡ is_free_for mode hold.now }
{
    match mode {
        Mode::Write => hold.is_empty(),
        Mode::Read => !has_writer(hold),
    }
}

// Where the pass goes in rising order.
pub fn place_for(hold: &[(u32, Mode)], pass: u32) -> usize
    ensures within { result ≤ length hold.now }
    ensures place { (mode : Mode)
        → insert hold.now result (pass, mode) ≡ add_holder pass mode hold.now }
{
    for (i, holder) in hold.iter().enumerate() {
        if pass < holder.0 {
            return i;
        }
    }
    hold.len()
}

// Where the pass stands in the hold.
pub fn place_of_holder(hold: &[(u32, Mode)], pass: u32) -> Option<usize>
    ensures { MatchOption result (remove_holder pass hold.now ≡ hold.now)
        (λ k. (k < length hold.now) × (remove hold.now k ≡ remove_holder pass hold.now)) }
{
    for (i, holder) in hold.iter().enumerate() {
        if holder.0 == pass {
            return Some(i);
        }
    }
    None
}

// Whether the pass stands in the list.
pub fn stands(line: &[u32], pass: u32) -> bool
    ensures { result ≡ not (times pass line.now == 0) }
{
    for waiter in line {
        if *waiter == pass {
            return true;
        }
    }
    false
}

// Whether the pass is the list's first.
pub fn is_first(line: &[u32], pass: u32) -> bool
    ensures { result ≡ (first line.now == suc pass) }
{
    match line {
        [] => false,
        [head, ..] => *head == pass,
    }
}

// Whether the pass is the list's last.
pub fn is_last(line: &[u32], pass: u32) -> bool
    ensures { result ≡ (last line.now == suc pass) }
{
    let mut is = false;
    for waiter in line {
        is = *waiter == pass;
    }
    is
}

// The last pass with a batch number, or 0 where no pass has one.
pub fn last_marked(mark: &[u16], line: &[u32]) -> Option<u32>
    ensures { link_word result ≡ last_marked (slice_index mark.now) line.now }
{
    let mut found = None;
    for waiter in line {
        if mark_at(mark, *waiter) > 0 {
            found = Some(*waiter);
        }
    }
    found
}

// The batch number of a pass; none is 0.
pub fn mark_at(mark: &[u16], pass: u32) -> u16
    ensures { result ≡ slice_index mark.now pass }
{
    match mark.get(pass as usize) {
        Some(m) => *m,
        None => 0,
    }
}

// All that stands behind the pass.
pub fn behind(line: &[u32], pass: u32) -> &[u32]
    ensures { result.now ≡ behind pass line.now }
{
    for (i, waiter) in line.iter().enumerate() {
        if *waiter == pass {
            return &line[i + 1..];
        }
    }
    &line[line.len()..]
}

// Whether the waiter may be taken out of the line, whose group ends at `end`.
#[tactic(auto, using(crate::proofs::Behind::follower_behind))]
pub fn may_detach(line: &[u32], end: u32, who: u32) -> bool
    ensures { result ≡ may_detach line.now end who }
{
    let rest = behind(line, end);
    stands(rest, who) && !is_first(rest, who) && !is_last(line, who)
}

// Where the pass stands.
#[tactic(auto, using(crate::proofs::Behind::put_behind_step))]
pub fn place_of(line: &[u32], pass: u32) -> Option<usize>
    ensures { MatchOption result (times pass line.now ≡ 0)
        (λ k. (k < length line.now)
        × (remove line.now k ≡ without pass line.now)
        × ((c : ℕ) → insert line.now (k + 1) c ≡ put_behind pass c line.now)) }
{
    for (i, waiter) in line.iter().enumerate() {
        if *waiter == pass {
            return Some(i);
        }
    }
    None
}
