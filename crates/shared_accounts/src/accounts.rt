//! Two accounts, as an object that stands behind the lock.
ghost use Rattle.std.specs.Prelude.{◌≡◌, slice_index};
ghost use Rattle.shared_accounts.specs.Accounts as meaning;

use hist_log::Object;

/// What may be asked of the accounts.
#[derive(Clone, Copy, Debug, PartialEq, Eq)]
pub enum Call {
    /// Puts so much from the first account into the second, if the first has it.
    Transfer { amount: u32 },
    /// Asks what the first account has.
    Balance,
}

/// Two accounts, with so many calls left.
#[derive(Clone, Copy, Debug, PartialEq, Eq)]
pub struct Accounts {
    pub first: u64,
    pub second: u64,
    pub spare: u32,
}

impl Object for Accounts {
    ghost use Rattle.std.specs.Prelude.{[], ◌∷◌};
    ghost use Rattle.std.proofs.Common.{rules};

    type Call = Call;

    type Reply = u64;

    ghost state_numbers = { meaning.state_numbers };

    ghost call_numbers = { meaning.call_numbers };

    ghost reply_numbers = { meaning.reply_numbers };

    ghost reply_at = { meaning.reply_at };

    ghost state_after = { meaning.state_after };

    ghost reads = { meaning.IsRead };

    ghost admits = { λ _ _. Unit {0} };

    ghost spare = { λ accounts. accounts.spare };

    fn is_read(call: &Call) -> bool {
        match call {
            Call::Transfer { .. } => false,
            Call::Balance => true,
        }
    }

    fn spare(&self) -> u32 {
        self.spare
    }

    fn apply(&mut self, call: &Call) -> u64 {
        self.spare -= 1;
        match *call {
            Call::Transfer { amount } => {
                let amount = u64::from(amount);
                if self.first < amount {
                    return 0;
                }
                self.first -= amount;
                self.second = self.second.wrapping_add(amount);
                amount
            }
            Call::Balance => self.first,
        }
    }

    fn look(&self, _call: &Call) -> u64 {
        self.first
    }

    ghost calls_differ = { meaning.calls_differ };

    ghost replies_differ = { λ a b. Prim.search rules };

    ghost states_differ = { λ a b same spare i. record {
      first = slice_index (same i) 0;
      second = slice_index (same i) 1;
      spare = spare i;
    } };

    ghost reads_leave = { meaning.reads_leave };

    ghost admits_stays = { λ state call other. Prim.search rules };
}
