//! The lock of a run, at its opening.
ghost use Rattle.std.specs.Prelude.{◌≡◌, ◌<◌, ◌≤◌, length, IfOk};
ghost use Rattle.shfl_core.specs.Runner as runner;
ghost use Rattle.shfl_core.specs.Waiting.{fresh};

use crate::waiter::AnyWaiter;
use shfl_core::{PlainWorld, Rules};
use shfl_line::{Attr, NoMemory};
use std::alloc::Global;

/// A lock with a pass for each of these attributes, at its opening.
pub fn open_lock(
    alloc: Global,
    attrs: &[Attr],
    rules: Rules,
) -> Result<PlainWorld<AnyWaiter>, NoMemory>
    requires some { 0 < length attrs.now }
    requires few { length attrs.now ≤ 1024 }
    ensures { IfOk result (λ lock. lock ≡ runner.opened rules attrs.now) }
{
    let form = rules.form;
    PlainWorld::open(
        alloc,
        attrs,
        rules.limit,
        |me: u32, attr: Attr, limit: u16|
            ensures { result ≡ fresh me attr (record { limit = limit; form = form }) }
        { AnyWaiter::new(me, attr, Rules { limit, form }) },
    )
}
