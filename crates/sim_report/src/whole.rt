//! The report of a setup.
ghost use Rattle.std.specs.Prelude.{◌≡◌, IfOk};
ghost use Rattle.sim_report.specs.Whole.{report_text};
ghost use Rattle.sim_text.specs.Setups.{IsWithin};

use crate::report::single_of;
use crate::spread::spreads_of;
use shfl_line::NoMemory;
use sim_text::SimSetup;
use std::alloc::Global;

/// The report of a setup: of one seed what each run comes to, of several how far that spreads.
pub fn report_of(alloc: Global, setup: &SimSetup) -> Result<Vec<u8>, NoMemory>
    requires { IsWithin setup.now }
    ensures { IfOk result (λ text. text.items ≡ report_text setup.now) }
{
    if setup.load.seeds.count == 1 {
        single_of(alloc, setup)
    } else {
        spreads_of(alloc, setup)
    }
}
