//! What the layers over shared words rest on. The functions do nothing when they run: their contracts are the laws.
ghost use Rattle.shfl_core.specs.Lawful.{Terms};
ghost use Rattle.shfl_line.specs.declared.events.Form.{Form};
ghost use Rattle.shfl_laws.specs.Seen.{InRangeLaw, ToldLaw, FormedNames, ToldNames, BellsInRange, StoresBlindly};
ghost use Rattle.shfl_laws.specs.Seen.{SeenLaw, MovesUnseen, IdleAlike, OwnStepLaw, OwnRangeLaw};
ghost use Rattle.shfl_laws.specs.SeenAlike.{SeenAlike};

/// In every lawful world a planned word is one of the world's, and so is each wakeup word; what an operation tells has its
/// word's form, so it names a pass where it should; a step that stores looks at nothing.
pub fn planned_words()
    ensures in_range { (t : Terms) → InRangeLaw t }
    ensures told { (t : Terms) → ToldLaw t }
    ensures names { FormedNames }
    ensures told_names { (t : Terms) → ToldNames t }
    ensures bells { (t : Terms) → BellsInRange t }
    ensures blind { StoresBlindly }
{}

/// A pass that has entered may be seen as idle until its first step, and one that leaves as a holder; an idle pass is seen
/// as it stands.
pub fn passes_as_seen()
    ensures lawful { (t : Terms) → SeenLaw t }
    ensures moves { (form : Form) → MovesUnseen form }
    ensures idle { (form : Form) → IdleAlike form }
{}

/// The step of a pass as it stands leads from a world that is lawful as the pass is seen to a lawful one, one step of the
/// line further, and the word that it plans to touch is one of the world's.
pub fn a_step_as_seen()
    ensures step { (t : Terms) → OwnStepLaw t }
    ensures in_range { (t : Terms) → OwnRangeLaw t }
{}

/// A world is lawful as its passes are seen exactly where it is lawful as they stand, and shows the same state.
pub fn lawful_as_seen()
    ensures alike { (t : Terms) → SeenAlike t }
{}
