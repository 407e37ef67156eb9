//! Whether a piece is a singleton: one letter or digit between hyphens.

ghost use Rattle.std.specs.Prelude.{◌≡◌, ◌∷◌, []};
ghost use Rattle.icu_locale_core_grammar.specs.Subtags.{is_singleton, spells};

/// Whether the piece is one letter or digit: true of `a` and `1`, false of `ab`. It does not allocate.
pub fn is_one_character(piece: &[u8]) -> bool
    ensures { result ≡ is_singleton piece.now }
{
    match piece {
        [only] => only.is_ascii_alphanumeric(),
        _ => false,
    }
}

/// Whether the piece is this one letter, in either case; the letter is given in lower case: true of `U` and `u`, false
/// of `t` and `u`. It does not allocate.
pub fn is_letter(piece: &[u8], letter: u8) -> bool
    ensures { result ≡ spells (letter ∷ []) piece.now }
{
    match piece {
        [only] => only.to_ascii_lowercase() == letter,
        _ => false,
    }
}
