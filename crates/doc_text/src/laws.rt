ghost use Rattle.std.specs.Prelude.{◌≡◌, ◌≢◌, ◌≤◌, ℕ, List, [], ◌∷◌, Some, Ok, map};
ghost use Rattle.std.specs.List.{flat_map, AllByRecursion};
ghost use Rattle.hex.specs.Hex.{IsBytes, encode_lower};
ghost use Rattle.doc_text.specs.Text.{pieces, text_in, ended, IsPlain};
ghost use Rattle.doc_text.specs.Words.{words, spaced, HasNoBlank};
ghost use Rattle.doc_text.specs.Digits.{bytes_in};

/// Lines, words and digits that were joined are read back. The laws are about the definitions alone.
pub fn joined_is_read_back()
    ensures lines { (texts : List (List ℕ)) → AllByRecursion IsPlain texts →
        pieces (flat_map ended texts) ≡ map ended texts }
    ensures text { (text : List ℕ) → IsPlain text → text_in (ended text) ≡ Some text }
    ensures words { (word : List ℕ) (others : List (List ℕ)) →
        AllByRecursion HasNoBlank (word ∷ others) →
        words (spaced (word ∷ others)) ≡ word ∷ others }
    ensures digits { (bytes : List ℕ) → IsBytes bytes →
        bytes_in (encode_lower bytes) ≡ Some bytes }
{}

/// What was read is what stands there. The laws are about the definitions alone.
pub fn read_is_joined()
    ensures text { (piece text : List ℕ) → text_in piece ≡ Some text →
        IsPlain text × (piece ≡ ended text) }
    ensures words { (text : List ℕ) → spaced (words text) ≡ text }
{}
