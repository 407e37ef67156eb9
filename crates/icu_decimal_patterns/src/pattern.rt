//! Patterns: the texts before and after one placeholder.

ghost use Rattle.std.specs.Prelude.{◌≡◌, [], ◌++◌, IfOk, IsOk, Some, string_bytes, false, is_err, OnOk, OnErr};
ghost use Rattle.std.specs.Cmp.{partial_equiv_from_equiv};
ghost use Rattle.writeable.specs.AnnotatedText.{bytes};
ghost use Rattle.writeable.specs.Taking.{HasBegun};
ghost use Rattle.icu_decimal_patterns.specs.Pattern.{HasNoText, literal, around, pattern_events};
ghost use Rattle.icu_decimal_patterns.specs.HeldPattern.{least_length, pattern_of};
ghost use Rattle.icu_decimal_patterns.specs.SamePattern.{same_pattern, same_pattern_equiv};

use crate::borrowed::BorrowedPattern;
pub use crate::interpolated::Interpolated;
use std::alloc::AllocError;
use std::marker::Model;
use writeable::{Error, Sink, Writeable};

// The texts of a pattern.
#[derive(Debug, Drop)]
enum Texts {
    Literal(String),
    Around(String, String),
}

/// Two texts around one placeholder, or one text without any: `{0}K`, or `thousand`.
///
/// Any text may be empty. The pattern without a placeholder and the one with nothing after it are different.
/// After the patterns with a single placeholder of ICU4X.
#[derive(Debug, Drop)]
pub struct Pattern {
    texts: Texts,
}

impl Model for Pattern {
    ghost use Rattle.icu_decimal_patterns.specs.Pattern.{PatternText};

    ghost Value = { PatternText };

    ghost use Rattle.icu_decimal_patterns.specs.HeldPattern.{pattern_of};

    ghost view = { λ p. pattern_of p.texts };
}

// The same text; no memory is taken for the empty one.
fn text_copied(text: &String) -> Result<String, AllocError>
    ensures succeeds { string_bytes text.now ≡ [] → IsOk result }
    ensures value { IfOk result (λ copy. string_bytes copy ≡ string_bytes text.now) }
{
    if text.is_empty() {
        return Ok(String::new(*text.allocator()));
    }
    text.clone()
}

impl Pattern {
    /// The pattern with `before` before its placeholder and `after` after it: the empty text and `K` make of `1.2` the
    /// text `1.2K`. It does not allocate.
    pub fn around(before: String, after: String) -> Self
        ensures { result ≡ around (string_bytes before) (string_bytes after) }
    {
        Pattern {
            texts: Texts::Around(before, after),
        }
    }

    /// The pattern of only this text, without a placeholder: `thousand` makes of `1` the text `thousand`. It does not
    /// allocate.
    pub fn literal(text: String) -> Self
        ensures { result ≡ literal (string_bytes text) }
    {
        Pattern {
            texts: Texts::Literal(text),
        }
    }

    // The same pattern with its texts borrowed.
    pub(crate) fn borrowed(&self) -> BorrowedPattern<'_>
        ensures { result ≡ self.now }
    {
        match &self.texts {
            Texts::Literal(text) => BorrowedPattern::literal(text.as_str()),
            Texts::Around(before, after) => {
                BorrowedPattern::around(before.as_str(), after.as_str())
            }
        }
    }

    /// An equal pattern: of `{0}K` another `{0}K`.
    ///
    /// It allocates for each text that is not empty. `AllocError`: out of memory, only where there is one.
    pub fn try_clone(&self) -> Result<Self, AllocError>
        ensures succeeds { HasNoText self.now → IsOk result }
        ensures value { IfOk result (λ copy. copy ≡ self.now) }
    {
        match &self.texts {
            Texts::Literal(text) => {
                let text = text_copied(text)?;
                Ok(Pattern::literal(text))
            }
            Texts::Around(before, after) => {
                let before = text_copied(before)?;
                let after = text_copied(after)?;
                Ok(Pattern::around(before, after))
            }
        }
    }
}

impl PartialEq for Pattern {
    ghost eq = { same_pattern };

    ghost laws = { partial_equiv_from_equiv same_pattern_equiv };

    fn eq(&self, other: &Self) -> bool {
        match (&self.texts, &other.texts) {
            (Texts::Literal(one), Texts::Literal(other)) => one == other,
            (Texts::Around(before, after), Texts::Around(other_before, other_after)) => {
                before == other_before && after == other_after
            }
            _ => false,
        }
    }
}

impl Eq for Pattern {
    ghost laws = { same_pattern_equiv };
}

impl Pattern {
    /// A value in the place of the placeholder: `1.2` in the pattern of thousands is `1.2K`. The pattern is borrowed.
    /// It does not allocate.
    pub fn interpolate<T>(&self, value: T) -> Interpolated<'_, T>
        ensures { result ≡ record { pattern = Some self.now; value = value } }
    {
        Interpolated::new(Some(self), value)
    }
}

// Writes a text; the sink is not called for the empty one.
fn write_some<S: Sink>(text: &str, sink: &mut S) -> Result<(), Error>
    requires { S.refused sink.old ≡ false }
    ensures ok { OnOk result (S.takes sink.old (bytes text.now) sink.new) }
    ensures refused { S.refused sink.new ≡ is_err result }
    ensures begun { OnErr result (HasBegun S.takes S.lacks_room sink.old (bytes text.now) sink.new) }
{
    if text.is_empty() {
        return Ok(());
    }
    sink.write_str(text)
}

// Writes a value between two texts.
fn write_between<T: Writeable, S: Sink>(
    before: &str,
    value: &T,
    after: &str,
    sink: &mut S,
) -> Result<(), Error>
    requires { S.refused sink.old ≡ false }
    ensures ok { OnOk result (S.takes sink.old (bytes before.now ++ (T.events value.now ++ bytes after.now)) sink.new) }
    ensures refused { S.refused sink.new ≡ is_err result }
    ensures begun { OnErr result
        (HasBegun S.takes S.lacks_room sink.old (bytes before.now ++ (T.events value.now ++ bytes after.now))
        sink.new) }
{
    write_some(before, sink)?;
    value.write_to(sink)?;
    write_some(after, sink)
}

// Writes a value in a pattern.
pub(crate) fn write_in<T: Writeable, S: Sink>(
    pattern: &Pattern,
    value: &T,
    sink: &mut S,
) -> Result<(), Error>
    requires { S.refused sink.old ≡ false }
    ensures ok { OnOk result (S.takes sink.old (pattern_events pattern.now (T.events value.now)) sink.new) }
    ensures refused { S.refused sink.new ≡ is_err result }
    ensures begun { OnErr result
        (HasBegun S.takes S.lacks_room sink.old (pattern_events pattern.now (T.events value.now)) sink.new) }
{
    match &pattern.texts {
        Texts::Literal(text) => sink.write_str(text.as_str()),
        Texts::Around(before, after) => {
            write_between(before.as_str(), value, after.as_str(), sink)
        }
    }
}

// How many bytes a pattern writes at least, where what is in it has so many.
pub(crate) fn least_length(pattern: &Pattern, inner: usize) -> usize
    ensures { result ≡ least_length pattern.now inner }
{
    match &pattern.texts {
        Texts::Literal(text) => text.len(),
        Texts::Around(_, _) => inner,
    }
}
