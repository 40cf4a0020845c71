//! The laws of stealing. The functions do nothing when they run: their contracts are the laws.
ghost use Rattle.shfl_core.specs.Lawful.{Terms};
ghost use Rattle.shfl_laws.specs.Stealing.{AttemptsWhereEnabled, DisableLaw, StealsWhereEnabled};

/// Stealing may be disabled at any time, beside the rows: the world stays lawful and shows the same.
pub fn stealing_may_be_disabled()
    ensures law { (t : Terms) → DisableLaw t }
{}

/// While stealing is disabled nobody takes the lock past the queue, by a step or by an attempt.
pub fn nobody_steals_while_disabled()
    ensures steps { (t : Terms) → StealsWhereEnabled t }
    ensures attempts { AttemptsWhereEnabled }
{}
