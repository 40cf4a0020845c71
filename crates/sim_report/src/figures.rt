//! The figures of a run: the one list of them, from which the report, the table over several seeds and the picture are made.
ghost use Rattle.std.specs.Prelude.{◌≡◌, ◌≤◌, length};
ghost use Rattle.sim_report.specs.Figures as figures;

use crate::endings::Ended;
use crate::tallies::{Key, Tally, half_of, most_of, tally_of};
use shfl_line::Attr;
use sim_model::{Counts, Reaches};

/// A figure: a number that is read off what a line tells of.
#[derive(Clone, Copy, Drop)]
pub enum Figure {
    Gained,
    Reads,
    Stolen,
    Same,
    Steps,
    Rounds,
    Asked,
    Yes,
    Insns,
    Relinks,
    Parks,
    Rings,
    Hits,
    Near,
    Far,
    Waited,
    Half,
    Most,
    Longest,
    Overtaken,
    Cut,
}

/// A line of figures: of all passes, of the accesses to a word, to the data or of attempts in vain, or of the passes with one value of a
/// key.
#[derive(Clone, Copy, Drop)]
pub enum Line {
    Gains,
    Work,
    Lock,
    Tail,
    Node,
    Data,
    Tried,
    Waits,
    Ends,
    Passes(Key, u32),
}

/// What a line tells of: passes, accesses, and what is counted of all.
#[derive(Clone, Copy, Drop)]
pub struct Told {
    pub tally: Tally,
    pub accesses: Reaches,
    pub same: u64,
    pub counts: Counts,
    pub half: u64,
    pub most: u64,
    pub cut: bool,
}

/// What a figure is called.
pub fn name_of(figure: Figure) -> &'static [u8]
    ensures { result.now ≡ figures.name_of figure }
{
    match figure {
        Figure::Gained => b"gained",
        Figure::Reads => b"reads",
        Figure::Stolen => b"stolen",
        Figure::Same => b"same",
        Figure::Steps => b"steps",
        Figure::Rounds => b"rounds",
        Figure::Asked => b"asked",
        Figure::Yes => b"yes",
        Figure::Insns => b"insns",
        Figure::Relinks => b"relinks",
        Figure::Parks => b"parks",
        Figure::Rings => b"rings",
        Figure::Hits => b"hits",
        Figure::Near => b"near",
        Figure::Far => b"far",
        Figure::Waited => b"waited",
        Figure::Half => b"half",
        Figure::Most => b"most",
        Figure::Longest => b"longest",
        Figure::Overtaken => b"overtaken",
        Figure::Cut => b"cut",
    }
}

/// A figure, read off what its line tells of; the cut is 1 for a run that had turns left.
pub fn value_of(told: &Told, figure: Figure) -> u64
    ensures { result ≡ figures.value_of told.now figure }
{
    match figure {
        Figure::Gained => told.tally.gained,
        Figure::Reads => told.tally.reads,
        Figure::Stolen => told.tally.stolen,
        Figure::Same => told.same,
        Figure::Steps => told.counts.steps,
        Figure::Rounds => told.counts.rounds,
        Figure::Asked => told.counts.asked,
        Figure::Yes => told.counts.yes,
        Figure::Insns => told.counts.insns,
        Figure::Relinks => told.counts.relinks,
        Figure::Parks => told.counts.parks,
        Figure::Rings => told.counts.rings,
        Figure::Hits => told.accesses.hits,
        Figure::Near => told.accesses.near,
        Figure::Far => told.accesses.far,
        Figure::Waited => told.tally.waited,
        Figure::Half => told.half,
        Figure::Most => told.most,
        Figure::Longest => told.tally.longest,
        Figure::Overtaken => told.tally.overtaken,
        Figure::Cut => u64::from(told.cut),
    }
}

/// The figures of a line, in their order.
pub fn figures_of(line: Line) -> &'static [Figure]
    ensures list { result.now ≡ figures.figures_of line }
    ensures few { length result.now ≤ 8 }
{
    match line {
        Line::Gains => &[Figure::Gained, Figure::Reads, Figure::Stolen, Figure::Same],
        Line::Work => &[
            Figure::Steps,
            Figure::Rounds,
            Figure::Asked,
            Figure::Yes,
            Figure::Insns,
            Figure::Relinks,
            Figure::Parks,
            Figure::Rings,
        ],
        Line::Lock | Line::Tail | Line::Node | Line::Data | Line::Tried => {
            &[Figure::Hits, Figure::Near, Figure::Far]
        }
        Line::Waits => &[Figure::Waited, Figure::Half, Figure::Most, Figure::Longest],
        Line::Ends => &[Figure::Cut],
        Line::Passes(_, _) => &[
            Figure::Gained,
            Figure::Waited,
            Figure::Longest,
            Figure::Overtaken,
        ],
    }
}

const NO_ACCESSES: Reaches = Reaches {
    hits: 0,
    near: 0,
    far: 0,
};

fn accesses_told(counts: &Counts, line: Line) -> Reaches
    ensures { result ≡ figures.accesses_told counts.now line }
{
    match line {
        Line::Lock => counts.lock,
        Line::Tail => counts.tail,
        Line::Node => counts.node,
        Line::Data => counts.data,
        Line::Tried => counts.tried,
        _ => NO_ACCESSES,
    }
}

// All passes together, whose gains are those of the order.
fn all_told(ended: &Ended, attrs: &[Attr]) -> Tally
    requires { length attrs.now ≤ 1024 }
    ensures { result ≡ figures.all_told ended.now attrs.now }
{
    let tally = tally_of(Key::All, 0, ended.time, attrs, &ended.bench.served);
    Tally {
        gained: ended.bench.order.gained,
        reads: tally.reads,
        stolen: tally.stolen,
        waited: tally.waited,
        longest: tally.longest,
        overtaken: tally.overtaken,
    }
}

fn tally_told(ended: &Ended, attrs: &[Attr], line: Line) -> Tally
    requires { length attrs.now ≤ 1024 }
    ensures { result ≡ figures.tally_told ended.now attrs.now line }
{
    match line {
        Line::Passes(key, value) => tally_of(key, value, ended.time, attrs, &ended.bench.served),
        _ => all_told(ended, attrs),
    }
}

/// What a line tells of a run that ended so, of passes with these attributes.
pub fn told_of(ended: &Ended, attrs: &[Attr], line: Line) -> Told
    requires { length attrs.now ≤ 1024 }
    ensures { result ≡ figures.told_of ended.now attrs.now line }
{
    let counts = ended.bench.counts;
    Told {
        tally: tally_told(ended, attrs, line),
        accesses: accesses_told(&counts, line),
        same: ended.bench.order.same,
        counts,
        half: half_of(ended.waits.as_slice()),
        most: most_of(ended.waits.as_slice()),
        cut: ended.cut,
    }
}
