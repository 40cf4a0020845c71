//! What the board is shown from.
use shfl_core::words::index;
use shfl_core::{PassState, Rules, Word};
use shfl_world::Sight;

/// The passes, and the words as they were read last: each after the last operation on it, so that no word has another value now.
#[derive(Drop)]
pub struct LastRead {
    pub rules: Rules,
    pub words: Vec<u64>,
    pub passes: Vec<PassState>,
}

impl Sight for LastRead {
    ghost use Rattle.shfl_solo.specs.Rule.{lock};

    ghost meaning = { λ s. lock s.rules s.words.items s.passes.items };

    fn passes(&self) -> usize {
        self.passes.len()
    }

    fn says(&self, word: Word) -> u64 {
        self.words[index(word)]
    }

    fn stands(&self, pass: u32) -> PassState {
        self.passes[pass as usize]
    }
}
