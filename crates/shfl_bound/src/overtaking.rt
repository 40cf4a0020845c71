//! The laws of who leaves before whom. The functions do nothing when they run: their contracts are the laws.
ghost use Rattle.shfl_core.specs.Lawful.{Terms};
ghost use Rattle.shfl_bound.specs.SharedSteps.{SharedStepLaw};
ghost use Rattle.shfl_bound.specs.Overtaking.{ChangeLaw, OvertakingNumber, WaiterBound};
ghost use Rattle.shfl_bound.specs.Overtaking.{JoinerBound, OpenedBound, FirstInFirstOut};

/// Each change leads from a lawful world to one, one step of the line further: a move, the one operation of an attempt,
/// stealing disabled beside the rows, a seat that is filled, an idle pass that is replaced.
pub fn every_change()
    ensures law { (t : Terms) → ChangeLaw t }
{}

/// Each step of a pass on shared words is made of such changes, also where it has entered or is about to leave and the
/// others still see it as it was.
pub fn steps_on_shared_words_are_changes()
    ensures law { (t : Terms) → SharedStepLaw t }
{}

/// Of each waiter there is a number, at most the batch limit for each pass ahead of it, that no change raises and each
/// departure of another pass lowers.
pub fn what_may_still_leave_before_a_waiter()
    ensures law { (t : Terms) → OvertakingNumber t }
{}

/// At most the batch limit leave the queue before a waiter for each pass that stands ahead of it in the shown line,
/// whatever the passes do, whatever the policies answer and whenever they are replaced.
pub fn no_policy_starves_a_waiter()
    ensures waiter { (t : Terms) → WaiterBound t }
    ensures joiner { (t : Terms) → JoinerBound t }
    ensures opened { OpenedBound }
{}

/// With a batch limit of 1 the passes leave the queue in the order in which they joined it.
pub fn first_in_first_out_at_limit_one()
    ensures law { (t : Terms) → FirstInFirstOut t }
{}
