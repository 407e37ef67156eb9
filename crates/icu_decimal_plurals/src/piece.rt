//! Pieces of a text: the longest runs of characters that belong to one token.

ghost use Rattle.std.specs.Prelude.{◌≡◌, ◌∷◌, ◌<◌, ◌≤◌, length};
ghost use Rattle.icu_decimal_plurals.specs.Tokens.{is_joined, is_blank, pieces};
ghost use Rattle.icu_decimal_plurals.specs.PieceSteps.{piece_len};

// Whether two characters, the one right after the other, belong to one piece.
fn is_joined(first: u8, second: u8) -> bool
    ensures { result ≡ is_joined first second }
{
    (first.is_ascii_lowercase() && second.is_ascii_lowercase())
        || (first.is_ascii_digit() && second.is_ascii_digit())
        || (first == b' ' && second == b' ')
        || (first == b'!' && second == b'=')
        || (first == b'.' && second == b'.')
}

// How long the first piece is.
#[tactic(auto, using(crate::proofs::PieceLemmas::ends, crate::proofs::PieceLemmas::stops, crate::proofs::PieceLemmas::goes_on))]
fn piece_len(text: &[u8]) -> usize
    requires { 0 < length text.now }
    ensures value { result ≡ piece_len text.now }
    ensures within { result ≤ length text.now }
    ensures some { 0 < result }
{
    let mut last = 0;
    while last + 1 < text.len() && is_joined(text[last], text[last + 1]) {
        last += 1;
    }
    last + 1
}

/// The first piece of a text, and the text after it: `i` and ` = 1` of `i = 1`. The condition is that the text is not
/// empty.
#[tactic(auto, using(crate::proofs::PieceLemmas::first_of))]
pub fn first_piece(text: &[u8]) -> (&[u8], &[u8])
    requires { 0 < length text.now }
    ensures parts { pieces text.now ≡ result.0.now ∷ pieces result.1.now }
    ensures shorter { length result.1.now < length text.now }
{
    text.split_at(piece_len(text))
}

/// Whether a piece holds only blanks.
pub fn is_blank(piece: &[u8]) -> bool
    ensures { result ≡ is_blank piece.now }
{
    piece.iter().all(|character| *character == b' ')
}
