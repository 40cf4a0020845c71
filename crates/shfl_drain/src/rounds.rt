//! The laws of handing on. The functions do nothing when they run: their contracts are the laws.
ghost use Rattle.shfl_core.specs.Lawful.{Terms};
ghost use Rattle.shfl_drain.specs.HandingOn.{HandingOn, AlwaysHandsOn, EachBeginsOrRests};

/// Each step of a pass in a round leaves it fewer steps, or is Give: its round is over then, and the batch's last has the
/// shuffler's flag. Nothing else that happens touches the round. So in every list of changes in which the pass makes 18 steps for
/// each pass of the lock and 3 more, those of parking counted, it hands on, whatever the policies answer.
pub fn a_shuffler_always_hands_on()
    ensures rounds { (t : Terms) → HandingOn t }
    ensures runs { (t : Terms) → AlwaysHandsOn t }
{}

/// The step of a pass at Begin begins its round, also where the policy skips it; or its batch is full: then no round begins,
/// and nobody has the flag until a head begins a batch anew.
pub fn only_a_full_batch_begins_no_round()
    ensures law { (t : Terms) → EachBeginsOrRests t }
{}
