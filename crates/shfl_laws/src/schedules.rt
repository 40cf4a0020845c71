//! The laws of every move and of every run. The functions do nothing when they run: their contracts are the laws.
ghost use Rattle.shfl_core.specs.Lawful.{Terms};
ghost use Rattle.shfl_core.specs.Worlds.{Move};
ghost use Rattle.shfl_laws.specs.Moves.{MoveLaw, OpeningLaw, RunLaw, SeatLaw, StepLaw};
ghost use Rattle.shfl_laws.specs.Moves.{StartLaw, ForgetLaw, TermsLaw, unseated, first_seated};

/// A lock of 1 to 65,535 passes and a limit of 1 to 1,024 is lawful at its opening, and shows that nobody holds or waits.
pub fn openings()
    ensures law { OpeningLaw }
{}

/// An acquire, a release or a step of any pass, with any answer of the policy, leads from a lawful world to one; the
/// shown states are one step of the line apart, the one that is named. A move that the pass doesn't admit changes nothing.
pub fn every_move()
    ensures law { (t : Terms) (m : Move) → MoveLaw t m }
{}

/// After any schedule from the opening the world is lawful, whatever the policies answer.
pub fn every_run()
    ensures law { RunLaw }
{}

/// A seat that is filled with an idle pass leaves the world lawful, and the line shows nothing of it.
pub fn a_seat_is_filled()
    ensures law { (t : Terms) → SeatLaw t }
{}

/// A lock of these sizes is lawful before any seat is filled, and with the first one filled; and its words tell what its
/// opening fixed from then on.
pub fn starts()
    ensures unseated { StartLaw unseated }
    ensures first_seat { StartLaw first_seated }
    ensures terms { (t : Terms) → TermsLaw t }
{}

/// The step of a pass, whatever its phase and park state, leads from a lawful world to one, one step of the line further.
pub fn every_step()
    ensures law { (t : Terms) → StepLaw t }
{}

/// An idle pass may be replaced by any idle one of its number: nothing rests on what its registers still say.
pub fn an_idle_pass_is_forgotten()
    ensures law { (t : Terms) → ForgetLaw t }
{}
