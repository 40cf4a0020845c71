//! Histories of an object that answers each call with the call.
ghost use Rattle.std.specs.Prelude.{◌≡◌};

use crate::checks::{holds, is_told};
use hist_log::{Entry, NoMemory, Object, legal};

/// Answers each call with its number.
#[derive(Drop)]
struct Echo {
    spare: u32,
}

impl Object for Echo {
    ghost use Rattle.std.specs.Prelude.{[], ◌∷◌};
    ghost use Rattle.std.proofs.Common.{rules};

    type Call = u32;

    type Reply = u32;

    ghost state_numbers = { λ _. [] };

    ghost call_numbers = { λ call. call ∷ [] };

    ghost reply_numbers = { λ reply. reply ∷ [] };

    ghost reply_at = { λ _ call. call };

    ghost state_after = { λ state _. state };

    ghost reads = { λ _. Unit {0} };

    ghost admits = { λ _ _. Unit {0} };

    ghost spare = { λ echo. echo.spare };

    fn is_read(_call: &u32) -> bool {
        true
    }

    fn spare(&self) -> u32 {
        self.spare
    }

    fn apply(&mut self, call: &u32) -> u32 {
        self.spare -= 1;
        *call
    }

    fn look(&self, call: &u32) -> u32 {
        *call
    }

    ghost calls_differ = { λ a b same. Prim.search rules };

    ghost replies_differ = { λ a b. Prim.search rules };

    ghost states_differ = { λ a b same spare i. record { spare = spare i } };

    ghost reads_leave = { λ state call reads. Prim.search rules };

    ghost admits_stays = { λ state call other. Prim.search rules };
}

fn entry(worker: u32, call: u32, reply: u32, receipt: u64) -> Entry<Echo>
    ensures { result ≡ record { worker = worker; call = call; reply = reply; receipt = receipt } }
{
    Entry {
        worker,
        call,
        reply,
        receipt,
    }
}

#[test]
fn a_history_is_legal_where_each_reply_is_the_objects(rt: HostRuntime) {
    let right = [entry(0, 7, 7, 0), entry(1, 8, 8, 1)];
    let wrong = [entry(0, 7, 7, 0), entry(1, 8, 7, 1)];
    holds(&rt, legal(&mut Echo { spare: 2 }, &right));
    holds(&rt, !legal(&mut Echo { spare: 2 }, &wrong));
}

#[test]
fn want_of_memory_is_told(rt: HostRuntime) {
    is_told(&rt, rt.alloc(), &NoMemory, "out of memory");
}
