ghost use Rattle.std.specs.Prelude.{◌≡◌, ◌≢◌, ◌<◌, ◌++◌, ◌∷◌, [], ℕ, List, length, Some, None, Ok, IfOk, IfSome, IsOkAnd, MatchOption};
ghost use Rattle.doc_text.specs.Text.{pieces, is_plain, text_in, ended, IsPlain, BeginsOddly, BeginsWith};
ghost use Rattle.doc_text.specs.Faults.{Gives, line_due, fixed_due};

use crate::fault::Fault;
use crate::splits::is_same;

/// The line at the front with its line feed, or what stands there without one, and the rest.
pub fn piece_at(bytes: &[u8]) -> (&[u8], &[u8])
    requires { bytes.now ≢ [] }
    ensures first { pieces bytes.now ≡ result.0.now ∷ pieces result.1.now }
    ensures whole { bytes.now ≡ result.0.now ++ result.1.now }
    ensures shorter { length result.1.now < length bytes.now }
{
    for (i, b) in bytes.iter().enumerate() {
        if *b == b'\n' {
            return bytes.split_at(i + 1);
        }
    }
    bytes.split_at(bytes.len())
}

// Whether a byte may stand in a line.
fn is_plain(b: u8) -> bool
    ensures { result ≡ is_plain b }
{
    b >= b' ' && b <= b'~'
}

/// What a piece says, where it is plain bytes and a line feed.
pub fn text_of(piece: &[u8]) -> Option<&[u8]>
    ensures { MatchOption result
        (text_in piece.now ≡ None)
        (λ t. text_in piece.now ≡ Some t.now) }
{
    let (last, front) = piece.split_last()?;
    if *last != b'\n' {
        return None;
    }
    for b in front {
        if !is_plain(*b) {
            return None;
        }
    }
    Some(front)
}

/// The text of the line at the front, where it is plain bytes and a line feed, and the bytes behind it.
pub fn text_at(bytes: &[u8]) -> Option<(&[u8], &[u8])>
    requires { bytes.now ≢ [] }
    ensures text { MatchOption result
        (BeginsOddly (pieces bytes.now))
        (λ x. BeginsWith x.0.now (pieces x.1.now) (pieces bytes.now)) }
    ensures shorter { IfSome result (λ x. length x.1.now < length bytes.now) }
{
    for (i, b) in bytes.iter().enumerate() {
        if !is_plain(*b) {
            if *b != b'\n' {
                return None;
            }
            return Some((&bytes[..i], &bytes[i + 1..]));
        }
    }
    None
}

#[tactic(auto, unfolding(crate::specs::Faults::line_due))]
fn front_line(bytes: &[u8], line: u32, what: u8) -> Result<(&[u8], &[u8]), Fault>
    ensures exact { Gives (λ x. (x.0.now, pieces x.1.now)) result
        (line_due line what (pieces bytes.now)) }
    ensures shorter { IfOk result (λ x. length x.1.now < length bytes.now) }
{
    if bytes.is_empty() {
        return Err(Fault { line, what });
    }
    match text_at(bytes) {
        Some((text, rest)) => Ok((text, rest)),
        None => Err(Fault { line, what: 1 }),
    }
}

/// The text of the line that is due at the front, and the bytes behind its line feed.
pub fn line_due(bytes: &[u8], line: u32, what: u8) -> Result<(&[u8], &[u8]), Fault>
    ensures exact { Gives (λ x. (x.0.now, pieces x.1.now)) result
        (line_due line what (pieces bytes.now)) }
    ensures shorter { IfOk result (λ x. length x.1.now < length bytes.now) }
    // What is read stands there as a line, and what stands there as a line is read.
    ensures found { IfOk result (λ x. IsPlain x.0.now × (bytes.now ≡ ended x.0.now ++ x.1.now)) }
    ensures only { (text rest : List ℕ) → IsPlain text → bytes.now ≡ ended text ++ rest →
        IsOkAnd result (λ x. (x.0.now ≡ text) × (x.1.now ≡ rest)) }
{
    front_line(bytes, line, what)
}

/// The bytes behind the line at the front, where that line is `wanted`.
#[tactic(auto, unfolding(crate::specs::Faults::fixed_due))]
pub fn fixed_due<'a>(bytes: &'a [u8], line: u32, what: u8, wanted: &[u8]) -> Result<&'a [u8], Fault>
    ensures exact { Gives (λ x. pieces x.now) result
        (fixed_due line what wanted.now (pieces bytes.now)) }
    ensures shorter { IfOk result (λ x. length x.now < length bytes.now) }
{
    let (text, rest) = line_due(bytes, line, what)?;
    if is_same(text, wanted) {
        Ok(rest)
    } else {
        Err(Fault { line, what })
    }
}
