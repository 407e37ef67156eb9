//! Whether a text reads as a given language identifier; nothing allocates.

ghost use Rattle.std.specs.Prelude.{◌≡◌, ◌==◌, ◌<◌, ◌≤◌, ◌^◌, ◌↔◌, false, [], ◌∷◌, length, option_to_list, IsTrue, MatchOption};
ghost use Rattle.std.specs.List.{list_all};
ghost use Rattle.icu_locale_core_grammar.specs.Subtags.{lower};
ghost use Rattle.icu_locale_core_grammar.specs.Collections.{contains_text};
ghost use Rattle.icu_locale_core_grammar.specs.Pieces.{pieces};
ghost use Rattle.icu_locale_core_grammar.specs.LanguagePart.{MeansLanguage};
ghost use Rattle.icu_locale_core_langid.specs.Spelling.{IsAt, IsVariantSet, Takes, SpellsSet, stands_in};

use crate::language_identifier::LanguageIdentifier;
use crate::laws::identifiers_read_back;
use icu_locale_core_subtag_lists::Variants;
use icu_locale_core_subtags::{SubtagIterator, SubtagOf, SubtagRule, Variant};

// Whether the next piece is this text but for case; it is then taken.
fn takes(iter: &mut SubtagIterator<'_>, text: &str) -> bool
    ensures { Takes result (text.now ∷ []) iter.old iter.new }
{
    match iter.next() {
        Some(piece) => piece.eq_ignore_ascii_case(text.as_bytes()),
        None => false,
    }
}

// Whether the next piece is the subtag, where there is one.
fn takes_optional<R: SubtagRule<N>, const N: usize>(
    iter: &mut SubtagIterator<'_>,
    subtag: Option<SubtagOf<R, N>>,
) -> bool
    ensures { Takes result (option_to_list subtag) iter.old iter.new }
{
    match subtag {
        Some(subtag) => takes(iter, subtag.as_str()),
        None => true,
    }
}

// How many variants one pass over the pieces looks for.
const WINDOW: usize = 4096;

// Whether there are this many pieces; no more of them are looked at.
fn are_as_many(pieces: SubtagIterator<'_>, count: usize) -> bool
    ensures { result ≡ (length pieces.entry == count) }
{
    let mut left = count;
    for _piece in pieces {
        if left == 0 {
            return false;
        }
        left -= 1;
    }
    left == 0
}

// The index of the piece among these variants, where it is one of them.
fn index_of(piece: &[u8], variants: &[Variant]) -> Option<usize>
    requires { IsVariantSet variants.now }
    ensures { MatchOption result (contains_text (lower piece.now) variants.now ≡ false)
        (IsAt (lower piece.now) variants.now) }
{
    match Variant::try_from_utf8(piece) {
        Ok(variant) => variants.binary_search(&variant).ok(),
        Err(_) => None,
    }
}

// Whether every mark is set.
fn are_set(marks: &[bool]) -> bool
    ensures { result ≡ list_all (λ mark. mark) marks.now }
{
    marks.iter().all(|mark| *mark)
}

// Whether each of these variants, N at most, is one of the pieces; it passes over the pieces once.
fn are_among<const N: usize>(variants: &[Variant], pieces: SubtagIterator<'_>) -> bool
    requires few { length variants.now ≤ N }
    requires held { N < 2 ^ 63 }
    requires set { IsVariantSet variants.now }
    ensures { result ≡ list_all (stands_in pieces.entry) variants.now }
{
    let mut seen = [false; N];
    for piece in pieces {
        if let Some(index) = index_of(piece, variants) {
            seen[index] = true;
        }
    }
    are_set(&seen[..variants.len()])
}

// Whether each of these variants is one of the pieces.
fn are_there(variants: &[Variant], pieces: &SubtagIterator<'_>) -> bool
    requires { IsVariantSet variants.now }
    ensures { result ≡ list_all (stands_in pieces.now) variants.now }
{
    let mut rest = variants;
    while !rest.is_empty() {
        let (window, behind) = rest.split_at(rest.len().min(WINDOW));
        if !are_among::<WINDOW>(window, pieces.again()) {
            return false;
        }
        rest = behind;
    }
    true
}

// Whether the pieces are the variants of the set, in some order.
fn spell_set(pieces: &SubtagIterator<'_>, set: &Variants) -> bool
    ensures { IsTrue result ↔ SpellsSet pieces.now set.now }
{
    let variants = set.as_slice();
    if !are_as_many(pieces.again(), variants.len()) {
        return false;
    }
    are_there(variants, pieces)
}

impl LanguageIdentifier {
    /// Whether the text reads as this identifier: `EN-latn` and `en-Latn` do as `en-Latn`, `en` does not.
    ///
    /// The variants may be in any order. It does not allocate. A text with another count of variants is refused after
    /// one pass; else it passes over the text once for every 4,096 variants, and a piece costs the logarithm of their
    /// count.
    pub fn normalizing_eq(&self, other: &str) -> bool
        ensures { IsTrue result ↔ MeansLanguage (pieces other.now) self.now }
    {
        identifiers_read_back(self);
        let mut iter = SubtagIterator::new(other.as_bytes());
        if !takes_optional(&mut iter, Some(self.language)) {
            return false;
        }
        if !takes_optional(&mut iter, self.script) {
            return false;
        }
        if !takes_optional(&mut iter, self.region) {
            return false;
        }
        spell_set(&iter, &self.variants)
    }
}
