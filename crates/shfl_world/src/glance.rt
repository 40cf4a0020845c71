//! What a scan of the passes finds: by whom the rest of a line state is shown.
ghost use Rattle.std.specs.Prelude.{◌≡◌, ◌<◌, true};
ghost use Rattle.shfl_core.specs.Phases as phases;
ghost use Rattle.shfl_core.specs.ShownLine.{is_ready};
ghost use Rattle.shfl_core.specs.Worlds.{World};
ghost use Rattle.shfl_world.specs.Showing as showing;

use crate::phases::{has_hand, is_fore, is_linking, is_queued, is_round};
use shfl_core::{PassState, Phase};
use shfl_line::NodeState;

/// The most passes of a lock that is scanned.
pub const PASSES: usize = 64;

/// The passes by which a line state is shown: each is the number of a pass plus 1, or 0 for none.
#[derive(Clone, Copy, Drop)]
pub struct Glance {
    /// The pass that is about to make its successor ready.
    pub granter: u32,
    /// The pass that is at the queue's head by its phase.
    pub fore: u32,
    /// The waiter that was made ready.
    pub called: u32,
    /// The pass that has its candidate out of the line.
    pub relinker: u32,
    /// The pass that is in a round of shuffling.
    pub walker: u32,
    /// The waiter that has the shuffler's flag.
    pub flagged: u32,
    /// For each pass, who has yet to write its next word.
    pub linkers: [u32; PASSES],
}

impl Glance {
    ghost use Rattle.shfl_world.specs.Showing.{Finds, Sees, SeesQueued};

    /// Nobody was seen yet.
    pub fn nobody() -> Glance
        ensures { (w : World) → Finds w 0 result }
    {
        Glance {
            granter: 0,
            fore: 0,
            called: 0,
            relinker: 0,
            walker: 0,
            flagged: 0,
            linkers: [0; PASSES],
        }
    }

    /// Sees a pass, with what its state word says. Where it is the first to pass a test, it is found.
    pub fn see(&mut self, pass: u32, own: PassState, node: NodeState)
        requires few { pass < 64 }
        requires linked { phases.is_linking own.phase ≡ true → own.reg.before < 64 }
        ensures { Sees self.old self.new pass own node }
    {
        if is_queued(own) {
            self.see_word(pass, node);
            self.see_queued(pass, own);
        } else {
            self.see_away(pass, own);
        }
    }

    // Sees a pass that isn't in the queue.
    #[tactic(auto, using(crate::proofs::Seeing::not_found))]
    fn see_away(&mut self, pass: u32, own: PassState)
        requires few { pass < 64 }
        ensures { self.new ≡ record self.old {
          granter = showing.first_found self.old.granter (is_ready own.phase) pass;
        } }
    {
        if matches!(own.phase, Phase::Ready) {
            self.granter = first_found(self.granter, true, pass);
        }
    }

    // Sees what the state word of a pass in the queue says.
    #[tactic(auto, using(crate::proofs::Seeing::not_found))]
    fn see_word(&mut self, pass: u32, node: NodeState)
        requires few { pass < 64 }
        ensures { self.new ≡ record self.old {
          called = showing.first_found self.old.called node.ready pass;
          flagged = showing.first_found self.old.flagged node.shuffler pass;
        } }
    {
        if node.ready {
            self.called = first_found(self.called, true, pass);
        }
        if node.shuffler {
            self.flagged = first_found(self.flagged, true, pass);
        }
    }

    // Sees what a pass in the queue is doing.
    #[tactic(auto, using(crate::proofs::Seeing::not_found))]
    fn see_queued(&mut self, pass: u32, own: PassState)
        requires few { pass < 64 }
        requires linked { phases.is_linking own.phase ≡ true → own.reg.before < 64 }
        ensures { SeesQueued self.old self.new pass own }
    {
        // Most look at their state words, and nothing else is found by them.
        if matches!(own.phase, Phase::Look) {
            return;
        }
        self.fore = first_found(self.fore, is_fore(own), pass);
        self.relinker = first_found(self.relinker, has_hand(own.phase), pass);
        self.walker = first_found(self.walker, is_round(own.phase), pass);
        if is_linking(own.phase) {
            let before = own.reg.before as usize;
            self.linkers[before] = first_found(self.linkers[before], true, pass);
        }
    }
}

fn first_found(found: u32, test: bool, pass: u32) -> u32
    requires { pass < 64 }
    ensures { result ≡ showing.first_found found test pass }
{
    if found == 0 && test { pass + 1 } else { found }
}
