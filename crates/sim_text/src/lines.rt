//! The lines of a setup up to its policies, one after the other.
ghost use Rattle.std.specs.Prelude.{◌≡◌, ◌<◌, ◌≤◌, ◌+◌, IfOk};
ghost use Rattle.doc_text.specs.Text.{pieces};
ghost use Rattle.doc_text.specs.Faults.{Gives, one_of};
ghost use Rattle.sim_text.specs.Lines.{layout_in, costs_in, until_in, seeds_in};
ghost use Rattle.sim_text.specs.Works.{work_in};
ghost use Rattle.sim_text.specs.Grammar.{machine_in, load_in, front_in};

use crate::costs::costs_of;
use crate::faults::{COSTS, FORM, LAYOUT, LIMIT, PROFILE, SEEDS, TITLE, UNTIL, WORK};
use crate::front::{layout_of, seeds_of, until_of};
use crate::setup::{Load, Machine, Queueing, Seeds};
use crate::work::work_of;
use doc_text::{Fault, fixed_due, line_due, or_fault};
use lock_words::{form_due, limit_due};
use policy_text::profile_due;
use sim_setup::{Costs, Layout, Work};

#[tactic(auto, unfolding(doc_text::specs::Faults::one_of))]
fn layout_due(bytes: &[u8]) -> Result<(Layout, &[u8]), Fault>
    ensures { Gives (λ x. (x.0, pieces x.1.now)) result (one_of 5 LAYOUT layout_in (pieces bytes.now)) }
{
    let (text, rest) = line_due(bytes, 5, LAYOUT)?;
    let layout = or_fault(layout_of(text), 5, LAYOUT)?;
    Ok((layout, rest))
}

#[tactic(auto, unfolding(doc_text::specs::Faults::one_of))]
fn costs_due(bytes: &[u8]) -> Result<(Costs, &[u8]), Fault>
    ensures { Gives (λ x. (x.0, pieces x.1.now)) result (one_of 6 COSTS costs_in (pieces bytes.now)) }
{
    let (text, rest) = line_due(bytes, 6, COSTS)?;
    let costs = or_fault(costs_of(text), 6, COSTS)?;
    Ok((costs, rest))
}

#[tactic(auto, unfolding(doc_text::specs::Faults::one_of))]
fn work_due(bytes: &[u8]) -> Result<((Work, Queueing), &[u8]), Fault>
    ensures exact { Gives (λ x. (x.0, pieces x.1.now)) result
        (one_of 7 WORK work_in (pieces bytes.now)) }
    ensures lines { IfOk result (λ x. x.0.0.lines ≤ 64) }
{
    let (text, rest) = line_due(bytes, 7, WORK)?;
    let Some(work) = work_of(text) else {
        return Err(Fault {
            line: 7,
            what: WORK,
        });
    };
    Ok((work, rest))
}

#[tactic(auto, unfolding(doc_text::specs::Faults::one_of))]
fn until_due(bytes: &[u8]) -> Result<((u64, u32), &[u8]), Fault>
    ensures { Gives (λ x. (x.0, pieces x.1.now)) result (one_of 8 UNTIL until_in (pieces bytes.now)) }
{
    let (text, rest) = line_due(bytes, 8, UNTIL)?;
    let until = or_fault(until_of(text), 8, UNTIL)?;
    Ok((until, rest))
}

#[tactic(auto, unfolding(doc_text::specs::Faults::one_of))]
fn seeds_due(bytes: &[u8]) -> Result<(Seeds, &[u8]), Fault>
    ensures exact { Gives (λ x. (x.0, pieces x.1.now)) result
        (one_of 9 SEEDS seeds_in (pieces bytes.now)) }
    ensures some { IfOk result (λ x. 0 < x.0.count) }
    ensures wide { IfOk result (λ x. x.0.first + x.0.count ≤ 18446744073709551616) }
{
    let (text, rest) = line_due(bytes, 9, SEEDS)?;
    let Some(seeds) = seeds_of(text) else {
        return Err(Fault {
            line: 9,
            what: SEEDS,
        });
    };
    Ok((seeds, rest))
}

#[tactic(auto, unfolding(crate::specs::Grammar::machine_in))]
fn machine_of(bytes: &[u8]) -> Result<(Machine, &[u8]), Fault>
    ensures exact { Gives (λ x. (x.0, pieces x.1.now)) result (machine_in (pieces bytes.now)) }
    ensures limit { IfOk result (λ x. (0 < x.0.limit) × (x.0.limit ≤ 1024)) }
{
    let rest = fixed_due(bytes, 1, TITLE, b"syncord-sim 1")?;
    let (profile, rest) = profile_due(rest, PROFILE)?;
    let (form, rest) = form_due(rest, 3, FORM)?;
    let (limit, rest) = limit_due(rest, 4, LIMIT)?;
    let (layout, rest) = layout_due(rest)?;
    let (costs, rest) = costs_due(rest)?;
    let machine = Machine {
        profile,
        form,
        limit,
        layout,
        costs,
    };
    Ok((machine, rest))
}

#[tactic(auto, unfolding(crate::specs::Grammar::load_in))]
fn load_of(bytes: &[u8]) -> Result<(Load, &[u8]), Fault>
    ensures exact { Gives (λ x. (x.0, pieces x.1.now)) result (load_in (pieces bytes.now)) }
    ensures lines { IfOk result (λ x. x.0.work.lines ≤ 64) }
    ensures some { IfOk result (λ x. 0 < x.0.seeds.count) }
    ensures wide { IfOk result (λ x. x.0.seeds.first + x.0.seeds.count ≤ 18446744073709551616) }
{
    let ((work, queueing), rest) = work_due(bytes)?;
    let ((until, turns), rest) = until_due(rest)?;
    let (seeds, rest) = seeds_due(rest)?;
    let load = Load {
        work,
        queueing,
        until,
        turns,
        seeds,
    };
    Ok((load, rest))
}

/// The nine lines up to the policies, and the bytes behind them.
#[tactic(auto, unfolding(crate::specs::Grammar::front_in))]
pub fn front_of(bytes: &[u8]) -> Result<(Machine, Load, &[u8]), Fault>
    ensures exact { Gives (λ x. (x.0, x.1, pieces x.2.now)) result (front_in (pieces bytes.now)) }
    ensures limit { IfOk result (λ x. (0 < x.0.limit) × (x.0.limit ≤ 1024)) }
    ensures lines { IfOk result (λ x. x.1.work.lines ≤ 64) }
    ensures some { IfOk result (λ x. 0 < x.1.seeds.count) }
    ensures wide { IfOk result (λ x. x.1.seeds.first + x.1.seeds.count ≤ 18446744073709551616) }
{
    let (machine, rest) = machine_of(bytes)?;
    let (load, rest) = load_of(rest)?;
    Ok((machine, load, rest))
}
