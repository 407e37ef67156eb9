//! The pieces of a text between its hyphens.

ghost use Rattle.std.specs.Prelude.{◌≡◌, ℕ, List, Option, Some, None, [], ◌∷◌, MatchOption, position};
ghost use Rattle.std.specs.Iterator.{YieldsFirstRef, item_count};
ghost use Rattle.icu_locale_core_grammar.specs.Pieces.{pieces, is_hyphen};
ghost use Rattle.icu_locale_core_subtags.specs.PiecesLeft.{pieces_left};

use std::iter::FusedIterator;
use std::marker::Model;

/// The pieces of a text between its hyphens, from the left, borrowed: `en-US` has `en` and `US`, and the empty text one
/// empty piece.
#[derive(Drop)]
pub struct SubtagIterator<'a> {
    rest: Option<&'a [u8]>,
}

impl<'a> Model for SubtagIterator<'a> {
    ghost Value = { List (List ℕ) };

    ghost view = { λ it. pieces_left it.rest };
}

// The index of the first hyphen, if there is one.
fn hyphen_in(text: &[u8]) -> Option<usize>
    ensures { result ≡ position is_hyphen text.now }
{
    text.iter().position(|b| *b == b'-')
}

// The first piece of a text, and what follows the hyphen that ends it.
fn split_piece(text: &[u8]) -> (&[u8], Option<&[u8]>)
    ensures { pieces text.now ≡ result.0.now ∷ pieces_left result.1 }
{
    match hyphen_in(text) {
        Some(end) => (&text[..end], Some(&text[end + 1..])),
        None => (text, None),
    }
}

impl<'a> SubtagIterator<'a> {
    /// The pieces of this text: of `en-US` they are `en`, `US`. It does not allocate.
    pub fn new(text: &'a [u8]) -> SubtagIterator<'a>
        ensures { result ≡ pieces text.now }
    {
        SubtagIterator { rest: Some(text) }
    }

    /// The same pieces, from the same place on: after `en` of `en-US` they are `US`. It does not allocate.
    pub fn again(&self) -> SubtagIterator<'a>
        ensures { result ≡ self.now }
    {
        SubtagIterator { rest: self.rest }
    }

    /// The next piece, which stays: of `en-US` it is `en`, twice. It does not allocate.
    pub fn peek(&self) -> Option<&'a [u8]>
        ensures { MatchOption result (self.now ≡ [])
            (λ piece. (others : List (List ℕ)) × (self.now ≡ piece.now ∷ others)) }
    {
        let rest = self.rest?;
        Some(split_piece(rest).0)
    }

    /// The pieces after the next one, and the next one: of `en-US` the pieces `US`, and `en`. `None` where none is
    /// left. It does not allocate.
    pub fn next_const(self) -> (SubtagIterator<'a>, Option<&'a [u8]>)
        ensures { MatchOption result.1 ((self.entry ≡ []) × (result.0 ≡ []))
            (λ piece. self.entry ≡ piece.now ∷ result.0) }
    {
        let SubtagIterator { rest } = self;
        match rest {
            None => (SubtagIterator { rest: None }, None),
            Some(text) => {
                let (piece, behind) = split_piece(text);
                (SubtagIterator { rest: behind }, Some(piece))
            }
        }
    }
}

impl<'a> Iterator for SubtagIterator<'a> {
    type Item = &'a [u8];

    ghost next_gives = { YieldsFirstRef (λ it. it) };

    ghost remaining = { item_count (λ it. it) };

    fn next(&mut self) -> Option<&'a [u8]> {
        let rest = self.rest?;
        let (piece, behind) = split_piece(rest);
        self.rest = behind;
        Some(piece)
    }
}

impl<'a> FusedIterator for SubtagIterator<'a> {}
