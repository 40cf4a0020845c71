//! The laws of who takes the lock past a waiter. The functions do nothing when they run: their contracts are the laws.
ghost use Rattle.shfl_core.specs.Lawful.{Terms};
ghost use Rattle.shfl_bound.specs.Stealing.{OnlyEnablersEnable, EnabledBound};
ghost use Rattle.shfl_bound.specs.Stealing.{StolenBound, WriterStolenBound, ExclusiveStolenBound, NoneStolen};

/// While a pass waits, stealing is enabled again only by the passes that had left the queue last and were about to enable
/// it as it joined, by each at most once.
pub fn only_who_left_last_enables_stealing()
    ensures law { (t : Terms) → OnlyEnablersEnable t }
    ensures bound { (t : Terms) → EnabledBound t }
{}

/// Where stealing is disabled again after at most m steals, as a head does that looks for it, at most m writers take the
/// lock past a waiter, however long it waits; and of all, readers too, at most m for each pass that was about to enable
/// stealing, and m more where it was enabled. Where it is disabled and nobody is about to enable it, nobody comes past.
pub fn few_steals_pass_a_waiter()
    ensures writers { (t : Terms) → WriterStolenBound t }
    ensures exclusive { (t : Terms) → ExclusiveStolenBound t }
    ensures all { (t : Terms) → StolenBound t }
    ensures none { (t : Terms) → NoneStolen t }
{}
