//! The laws of holds. The functions do nothing when they run: their contracts are the laws.
ghost use Rattle.shfl_core.specs.Lawful.{Terms};
ghost use Rattle.shfl_line.specs.declared.events.Form.{Form};
ghost use Rattle.shfl_laws.specs.Holds.{WriterAlone, HoldsAsSeen, StepKeepsMode, OnlyReleaseFrees};
ghost use Rattle.shfl_laws.specs.Holds.{NoneLeadsToRelease, WaitsOn};

/// Who writes holds alone; a pass holds as it is seen to hold, in a mode that no step changes, and only a step that gives
/// the lock back ends its hold. No step and no attempt leads to such a step.
pub fn holds_of_passes()
    ensures alone { (t : Terms) → WriterAlone t }
    ensures seen { (form : Form) → HoldsAsSeen form }
    ensures mode { StepKeepsMode }
    ensures freed { OnlyReleaseFrees }
    ensures release { NoneLeadsToRelease }
{}

/// No step of a pass that waits for the lock or holds it makes it idle.
pub fn waiters_wait_on()
    ensures law { WaitsOn }
{}
