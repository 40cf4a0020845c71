//! The line of the work: what a pass does, and how often it tries before it queues.
ghost use Rattle.std.specs.Prelude.{◌≡◌, ◌≤◌, IfSome, option_map};
ghost use Rattle.doc_text.specs.Words.{words};
ghost use Rattle.sim_text.specs.Said.{left_said};
ghost use Rattle.sim_text.specs.Words.{words_left};
ghost use Rattle.sim_text.specs.Works.{work_alone, work_next, queueing_named, tries_named, work_tries, work_in};

use crate::setup::Queueing;
use crate::words::{name_next, number_next};
use doc_text::{five_words, is_same, number, two_words};
use sim_setup::{Tries, Work};

// `work HOLD LINES THINK READS`.
fn work_alone(text: &[u8]) -> Option<(Work, Queueing)>
    ensures exact { result ≡ work_alone (words text.now) }
    ensures lines { IfSome result (λ w. w.0.lines ≤ 64) }
{
    let (word, hold, lines, think, reads) = five_words(text)?;
    if !is_same(word, b"work") {
        return None;
    }
    let hold = number(4_294_967_295, hold)? as u32;
    let lines = number(64, lines)? as u32;
    let think = number(4_294_967_295, think)? as u32;
    let reads = number(1000, reads)? as u32;
    let work = Work {
        hold,
        lines,
        think,
        reads,
    };
    Some((work, Queueing::AtOnce))
}

// The four numbers of the work, and the text behind them.
#[tactic(auto, unfolding(crate::specs::Works::work_next))]
fn work_next(left: Option<&[u8]>) -> Option<(Work, Option<&[u8]>)>
    ensures exact { option_map (λ x. (x.0, words_left (left_said x.1))) result
        ≡ work_next (words_left (left_said left.entry)) }
    ensures lines { IfSome result (λ w. w.0.lines ≤ 64) }
{
    let (hold, left) = number_next(left)?;
    let (lines, left) = number_next(left)?;
    let (think, left) = number_next(left)?;
    let (reads, left) = number_next(left)?;
    if lines > 64 || reads > 1000 {
        return None;
    }
    let work = Work {
        hold,
        lines,
        think,
        reads,
    };
    Some((work, left))
}

// The words behind `tries`: `N PAUSE`, or `by-policy PAUSE`.
fn queueing_named(text: &[u8]) -> Option<Queueing>
    ensures { result ≡ queueing_named (words text.now) }
{
    let (often, pause) = two_words(text)?;
    let pause = number(4_294_967_295, pause)? as u32;
    if is_same(often, b"by-policy") {
        return Some(Queueing::ByPolicy { pause });
    }
    let most = number(1000, often)? as u32;
    Some(Queueing::After(Tries { most, pause }))
}

// `tries N PAUSE`, or `tries by-policy PAUSE`.
#[tactic(auto, using(crate::proofs::Leftover::no_name))]
fn tries_named(left: Option<&[u8]>) -> Option<Queueing>
    ensures { result ≡ tries_named (words_left (left_said left.entry)) }
{
    let behind = name_next(b"tries", left?)?;
    queueing_named(behind?)
}

// `work HOLD LINES THINK READS tries N PAUSE`, or `work HOLD LINES THINK READS tries by-policy PAUSE`.
#[tactic(auto, unfolding(crate::specs::Works::work_tries))]
fn work_tries(text: &[u8]) -> Option<(Work, Queueing)>
    ensures exact { result ≡ work_tries (words text.now) }
    ensures lines { IfSome result (λ w. w.0.lines ≤ 64) }
{
    let left = name_next(b"work", text)?;
    let (work, left) = work_next(left)?;
    let queueing = tries_named(left)?;
    Some((work, queueing))
}

/// The work that a line says, and when its calls join the queue: at once where nothing else is said.
pub fn work_of(text: &[u8]) -> Option<(Work, Queueing)>
    ensures exact { result ≡ work_in (words text.now) }
    ensures lines { IfSome result (λ w. w.0.lines ≤ 64) }
{
    match work_alone(text) {
        Some(work) => Some(work),
        None => work_tries(text),
    }
}
