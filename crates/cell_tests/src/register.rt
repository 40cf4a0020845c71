//! A register, whose history shows in which order the calls were made.
ghost use Rattle.std.specs.Prelude.{◌≡◌, ◌≤◌, length};

use hist_log::{Entry, Object, legal};

/// The call that looks. Any other call puts its number there.
pub const LOOK: u32 = 0;

/// Has one number. Each call is answered with the number that stood there.
#[derive(Drop)]
pub struct Register {
    pub value: u32,
    pub spare: u32,
}

impl Object for Register {
    ghost use Rattle.std.specs.Prelude.{[], ◌∷◌, ◌==◌, slice_index, if◌then◌else◌};
    ghost use Rattle.std.proofs.Common.{rules, ap, cond, eq-eqb};

    type Call = u32;

    type Reply = u32;

    ghost state_numbers = { λ register. register.value ∷ [] };

    ghost call_numbers = { λ call. call ∷ [] };

    ghost reply_numbers = { λ reply. reply ∷ [] };

    ghost reply_at = { λ state _. state };

    ghost state_after = { λ state call. if slice_index call 0 == 0 then state else call };

    ghost reads = { λ call. slice_index call 0 ≡ 0 };

    ghost admits = { λ _ _. Unit {0} };

    ghost spare = { λ register. register.spare };

    fn is_read(call: &u32) -> bool {
        *call == LOOK
    }

    fn spare(&self) -> u32 {
        self.spare
    }

    fn apply(&mut self, call: &u32) -> u32 {
        let before = self.value;
        self.spare -= 1;
        if *call != LOOK {
            self.value = *call;
        }
        before
    }

    fn look(&self, _call: &u32) -> u32 {
        self.value
    }

    ghost calls_differ = { λ a b same. Prim.search rules };

    ghost replies_differ = { λ a b. Prim.search rules };

    ghost states_differ = { λ a b same spare. Prim.search rules };

    ghost reads_leave = { λ state call reads.
        ap (λ b. cond b state call) (eq-eqb (slice_index call 0) 0 reads) };

    ghost admits_stays = { λ state call other. Prim.search rules };
}

/// What workers call: each call writes, or every fourth one does and the others look.
#[derive(Clone, Copy)]
pub enum Mix {
    Writes,
    Looks,
}

/// The call that a worker makes after so many of its own.
pub fn call_of(mix: Mix, worker: u32, before: u32) -> u32 {
    if matches!(mix, Mix::Looks) && before % 4 != 0 {
        return LOOK;
    }
    worker
        .wrapping_mul(65536)
        .wrapping_add(before)
        .wrapping_add(1)
}

/// Whether a register that starts with 0 answers these calls so, and each of so many workers has its
/// calls here, each once and in its order.
pub fn is_whole(entries: &[Entry<Register>], mix: Mix, workers: u32, calls: u32) -> bool {
    if entries.len() > 65536 || workers > 64 {
        return false;
    }
    let mut fresh = Register {
        value: 0,
        spare: 65536,
    };
    legal(&mut fresh, entries) && are_in_order(entries, mix, workers, calls)
}

fn are_in_order(entries: &[Entry<Register>], mix: Mix, workers: u32, calls: u32) -> bool
    requires { workers ≤ 64 }
{
    let mut made = [0u32; 64];
    for entry in entries {
        let worker = entry.worker as usize;
        if worker >= 64 || entry.call != call_of(mix, entry.worker, made[worker]) {
            return false;
        }
        made[worker] = made[worker].wrapping_add(1);
    }
    made.iter()
        .take(workers as usize)
        .all(|count| *count == calls)
}
