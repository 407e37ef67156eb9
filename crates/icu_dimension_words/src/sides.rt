//! A text of words, with its part.

ghost use Rattle.std.specs.Prelude.{◌≡◌, IfNone, IfSome, ◌++◌, ◌≢◌, ℕ, List, drop, false, is_err, reverse, take, OnErr, OnOk};
ghost use Rattle.std.specs.Str.{chars};
ghost use Rattle.writeable.specs.PartName.{name_of};
ghost use Rattle.writeable.specs.Taking.{HasBegun};
ghost use Rattle.icu_decimal_plain.specs.Affixes.{as_part};
ghost use Rattle.icu_dimension_words.specs.WordSides.{blanks_after, blanks_before, inner_events, is_blank, past_blanks, side_events};

use crate::readable::{is_text, split_last_character};
use icu_decimal_reading::digits::split_character;
use writeable::{Error, Part, Sink};

// Whether a character is white space or a mark of direction.
fn is_blank(character: char) -> bool
    ensures { result ≡ is_blank character }
{
    character.is_whitespace()
        || (character == '\u{61c}' || (character == '\u{200e}' || character == '\u{200f}'))
}

// What follows the blanks at the start of a text.
#[tactic(auto, using(crate::proofs::SideLemmas::blank_more, crate::proofs::SideLemmas::blank_stops, crate::proofs::SideLemmas::blank_end))]
fn past_blanks(text: &str) -> &str
    ensures { chars result.now ≡ past_blanks (chars text.now) }
{
    let mut left = text;
    while let Some((character, rest)) = split_character(left) {
        if !is_blank(character) {
            return left;
        }
        left = rest;
    }
    left
}

// What is before the blanks at the end of a text.
#[tactic(auto, using(crate::proofs::SideLemmas::blank_more, crate::proofs::SideLemmas::blank_stops, crate::proofs::SideLemmas::blank_end))]
fn before_blanks(text: &str) -> &str
    ensures { reverse (chars result.now) ≡ past_blanks (reverse (chars text.now)) }
{
    let mut left = text;
    while let Some((character, rest)) = split_last_character(left) {
        if !is_blank(character) {
            return left;
        }
        left = rest;
    }
    left
}

// What is before a text at the end of another.
fn strip_end<'t>(text: &'t str, end: &str) -> Option<&'t str>
    ensures some { IfSome result (λ front. text.now ≡ front.now ++ end.now) }
    ensures none { IfNone result ((front : List ℕ) → text.now ≢ front ++ end.now) }
{
    text.strip_suffix(end)
}

// What follows a text at the front of another.
fn strip_start<'t>(text: &'t str, start: &str) -> Option<&'t str>
    ensures some { IfSome result (λ rest. text.now ≡ start.now ++ rest.now) }
    ensures none { IfNone result ((rest : List ℕ) → text.now ≢ start.now ++ rest) }
{
    text.strip_prefix(start)
}

// The blanks at the start of a text, and what follows them.
fn cut_before(text: &str) -> (&str, &str)
    ensures blanks { result.0.now ≡ take (blanks_before text.now) text.now }
    ensures inner { result.1.now ≡ drop (blanks_before text.now) text.now }
{
    let inner = past_blanks(text);
    is_text(text);
    is_text(inner);
    match strip_end(text, inner) {
        Some(blanks) => (blanks, inner),
        None => unreachable!(),
    }
}

// What is before the blanks at the end of a text, and these.
fn cut_after(text: &str) -> (&str, &str)
    ensures inner { result.0.now ≡ take (blanks_after text.now) text.now }
    ensures blanks { result.1.now ≡ drop (blanks_after text.now) text.now }
{
    let inner = before_blanks(text);
    is_text(text);
    is_text(inner);
    match strip_start(text, inner) {
        Some(blanks) => (inner, blanks),
        None => unreachable!(),
    }
}

// Writes a text as a part.
fn write_part<S: Sink>(part: Part, text: &str, sink: &mut S) -> Result<(), Error>
    requires { S.refused sink.old ≡ false }
    ensures ok { OnOk result (S.takes sink.old (as_part (name_of part) text.now) sink.new) }
    ensures refused { S.refused sink.new ≡ is_err result }
    ensures begun { OnErr result (HasBegun S.takes S.lacks_room sink.old (as_part (name_of part) text.now) sink.new) }
{
    sink.open_part(part)?;
    sink.write_str(text)?;
    sink.close_part()
}

// Writes a text as a part, without the blanks at its end.
fn write_inner<S: Sink>(part: Part, text: &str, sink: &mut S) -> Result<(), Error>
    requires { S.refused sink.old ≡ false }
    ensures ok { OnOk result (S.takes sink.old (inner_events (name_of part) text.now) sink.new) }
    ensures refused { S.refused sink.new ≡ is_err result }
    ensures begun { OnErr result (HasBegun S.takes S.lacks_room sink.old (inner_events (name_of part) text.now) sink.new) }
{
    let (inner, blanks) = cut_after(text);
    write_part(part, inner, sink)?;
    sink.write_str(blanks)
}

// Writes a text as a part, without the blanks at its ends.
#[tactic(auto, unfolding(crate::specs::WordSides::side_events))]
pub(crate) fn write_side<S: Sink>(part: Part, text: &str, sink: &mut S) -> Result<(), Error>
    requires { S.refused sink.old ≡ false }
    ensures ok { OnOk result (S.takes sink.old (side_events (name_of part) text.now) sink.new) }
    ensures refused { S.refused sink.new ≡ is_err result }
    ensures begun { OnErr result (HasBegun S.takes S.lacks_room sink.old (side_events (name_of part) text.now) sink.new) }
{
    let (blanks, inner) = cut_before(text);
    sink.write_str(blanks)?;
    write_inner(part, inner, sink)
}
