//! The columns of several passes.
ghost use Rattle.std.specs.Prelude.{◌≡◌};
ghost use Rattle.line_picture.specs.Lists.{is_list, is_pass, is_waiter, is_holder};

use crate::marks::{is_holder, is_pass, is_waiter};
use doc_text::is_same;
use shfl_line::Form;

/// Whether a column is one of holders.
pub fn are_holders(form: Form, passes: u32, word: &[u8]) -> bool
    ensures { result ≡ is_list (is_holder form passes) word.now }
{
    is_same(word, b"-")
        || word
            .split(|b| *b == b',')
            .all(|part| is_holder(form, passes, part))
}

/// Whether a column is one of waiters and their batch numbers.
pub fn are_waiters(passes: u32, word: &[u8]) -> bool
    ensures { result ≡ is_list (is_waiter passes) word.now }
{
    is_same(word, b"-")
        || word
            .split(|b| *b == b',')
            .all(|part| is_waiter(passes, part))
}

/// Whether a column is one of passes.
pub fn are_passes(passes: u32, word: &[u8]) -> bool
    ensures { result ≡ is_list (is_pass passes) word.now }
{
    is_same(word, b"-") || word.split(|b| *b == b',').all(|part| is_pass(passes, part))
}
