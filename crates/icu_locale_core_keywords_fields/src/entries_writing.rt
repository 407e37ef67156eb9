//! Writing maps: their keys and the subtags of their values between hyphens, without parts.

ghost use Rattle.std.specs.Prelude.{◌≡◌, ◌++◌, ◌<◌, ◌^◌, false, [], ◌∷◌, is_err, length, OnOk, OnErr, SomeIff};
ghost use Rattle.writeable.specs.AnnotatedText.{bytes};
ghost use Rattle.writeable.specs.Taking.{HasBegun};
ghost use Rattle.icu_locale_core_grammar.specs.Pieces.{hyphen};
ghost use Rattle.icu_locale_core_keywords_fields.specs.EntryText.{hyphened_value, entry_text, entries_text, hyphened_entries};

use crate::entries::EntriesOf;
use crate::kind::EntryKind;
use crate::value::ValueOf;
use icu_locale_core_subtags::SubtagOf;
use std::fmt;
use writeable::{Error, LengthHint, Sink, Writeable, display};

// Writes a key and its value: `ca-buddhist`.
fn write_entry<K: EntryKind, S: Sink>(
    key: &SubtagOf<K, 2>,
    value: &ValueOf<K>,
    sink: &mut S,
) -> Result<(), Error>
    requires { S.refused sink.old ≡ false }
    ensures ok { OnOk result (S.takes sink.old (bytes key.now ++ bytes (hyphened_value K.needs value.now)) sink.new) }
    ensures refused { S.refused sink.new ≡ is_err result }
    ensures begun { OnErr result
        (HasBegun S.takes S.lacks_room sink.old (bytes key.now ++ bytes (hyphened_value K.needs value.now)) sink.new) }
{
    key.write_to(sink)?;
    value.write_hyphened(sink)
}

// Writes a hyphen, a key and its value.
fn write_next_entry<K: EntryKind, S: Sink>(
    key: &SubtagOf<K, 2>,
    value: &ValueOf<K>,
    sink: &mut S,
) -> Result<(), Error>
    requires { S.refused sink.old ≡ false }
    ensures ok { OnOk result
        (S.takes sink.old (bytes (hyphen ∷ []) ++ (bytes key.now ++ bytes (hyphened_value K.needs value.now)))
        sink.new) }
    ensures refused { S.refused sink.new ≡ is_err result }
    ensures begun { OnErr result
        (HasBegun S.takes S.lacks_room sink.old
        (bytes (hyphen ∷ []) ++ (bytes key.now ++ bytes (hyphened_value K.needs value.now))) sink.new) }
{
    sink.write_char('-')?;
    write_entry(key, value, sink)
}

// Writes the entries, each piece with a hyphen before it.
fn write_entries<K: EntryKind, S: Sink>(
    entries: &[(SubtagOf<K, 2>, ValueOf<K>)],
    sink: &mut S,
) -> Result<(), Error>
    requires { S.refused sink.old ≡ false }
    ensures ok { OnOk result (S.takes sink.old (bytes (hyphened_entries K.needs entries.now)) sink.new) }
    ensures refused { S.refused sink.new ≡ is_err result }
    ensures begun { OnErr result
        (HasBegun S.takes S.lacks_room sink.old (bytes (hyphened_entries K.needs entries.now)) sink.new) }
{
    for (key, value) in entries {
        write_next_entry(key, value, sink)?;
    }
    Ok(())
}

// How many bytes `write_entries` writes, where a `usize` holds it.
fn entries_length<K: EntryKind>(entries: &[(SubtagOf<K, 2>, ValueOf<K>)]) -> Option<usize>
    ensures { SomeIff result (length (hyphened_entries K.needs entries.now) < 2 ^ 64)
        (length (hyphened_entries K.needs entries.now)) }
{
    let mut length: usize = 0;
    for (key, value) in entries {
        let entry = value
            .hyphened_length()?
            .checked_add(key.as_str().len() + 1)?;
        length = length.checked_add(entry)?;
    }
    Some(length)
}

// Writes the first entry, and the others with a hyphen before each piece.
fn write_map<K: EntryKind, S: Sink>(
    first: &(SubtagOf<K, 2>, ValueOf<K>),
    others: &[(SubtagOf<K, 2>, ValueOf<K>)],
    sink: &mut S,
) -> Result<(), Error>
    requires { S.refused sink.old ≡ false }
    ensures ok { OnOk result
        (S.takes sink.old
        ((bytes first.now.0 ++ bytes (hyphened_value K.needs first.now.1))
        ++ bytes (hyphened_entries K.needs others.now)) sink.new) }
    ensures refused { S.refused sink.new ≡ is_err result }
    ensures begun { OnErr result
        (HasBegun S.takes S.lacks_room sink.old
        ((bytes first.now.0 ++ bytes (hyphened_value K.needs first.now.1))
        ++ bytes (hyphened_entries K.needs others.now)) sink.new) }
{
    write_entry(&first.0, &first.1, sink)?;
    write_entries(others, sink)
}

// How many bytes `write_map` writes, where a `usize` holds it.
fn map_length<K: EntryKind>(
    first: &(SubtagOf<K, 2>, ValueOf<K>),
    others: &[(SubtagOf<K, 2>, ValueOf<K>)],
) -> Option<usize>
    ensures { SomeIff result (length (entry_text K.needs first.now ++ hyphened_entries K.needs others.now) < 2 ^ 64)
        (length (entry_text K.needs first.now ++ hyphened_entries K.needs others.now)) }
{
    let entry = first
        .1
        .hyphened_length()?
        .checked_add(first.0.as_str().len())?;
    entries_length(others)?.checked_add(entry)
}

// How many bytes the text of a map has, where a `usize` holds it.
fn entries_text_length<K: EntryKind>(map: &EntriesOf<K>) -> Option<usize>
    ensures { SomeIff result (length (entries_text K.needs map.now) < 2 ^ 64) (length (entries_text K.needs map.now)) }
{
    match map.as_slice().split_first() {
        Some((first, others)) => map_length(first, others),
        None => Some(0),
    }
}

impl<K: EntryKind> EntriesOf<K> {
    /// Writes the entries in order of their keys, each subtag with a hyphen before it: `-ca-buddhist-nu-thai`.
    ///
    /// The condition is that the sink has not refused yet. `Error`, only where the sink refused: it has taken a
    /// beginning. Only the sink may allocate.
    pub fn write_hyphened<S: Sink>(&self, sink: &mut S) -> Result<(), Error>
        requires { S.refused sink.old ≡ false }
        ensures ok { OnOk result (S.takes sink.old (bytes (hyphened_entries K.needs self.now)) sink.new) }
        ensures refused { S.refused sink.new ≡ is_err result }
        ensures begun { OnErr result
            (HasBegun S.takes S.lacks_room sink.old (bytes (hyphened_entries K.needs self.now)) sink.new) }
    {
        write_entries(self.as_slice(), sink)
    }

    /// How many bytes `write_hyphened` writes: 20 of `ca-buddhist-nu-thai`. `None` where a `usize` does not hold it. It
    /// does not allocate.
    pub fn hyphened_length(&self) -> Option<usize>
        ensures { SomeIff result (length (hyphened_entries K.needs self.now) < 2 ^ 64)
            (length (hyphened_entries K.needs self.now)) }
    {
        entries_length(self.as_slice())
    }
}

impl<K: EntryKind> Writeable for EntriesOf<K> {
    ghost use Rattle.std.specs.Prelude.{◌≡◌, ◌<◌, ◌^◌, Some, length};
    ghost use Rattle.writeable.specs.AnnotatedText.{bytes, text_of};
    ghost use Rattle.writeable.specs.LengthHint.{IsWithinHint};
    ghost use Rattle.icu_locale_core_keywords_fields.specs.EntryText.{entries_text};

    ghost events = { λ m. bytes (entries_text K.needs m) };

    fn write_to<S: Sink>(&self, sink: &mut S) -> Result<(), Error> {
        match self.as_slice().split_first() {
            Some((first, others)) => write_map(first, others, sink),
            None => Ok(()),
        }
    }

    #[tactic(auto, using(writeable::proofs::AnnotatedTextLemmas::text_of_bytes))]
    fn writeable_length_hint(&self) -> LengthHint
        ensures within { IsWithinHint result (length (text_of (bytes (entries_text K.needs self.now)))) }
        ensures low { length (entries_text K.needs self.now) < 2 ^ 64
            → result.low ≡ length (entries_text K.needs self.now) }
        ensures high { length (entries_text K.needs self.now) < 2 ^ 64
            → result.high ≡ Some (length (entries_text K.needs self.now)) }
    {
        match entries_text_length(self) {
            Some(length) => LengthHint::exact(length),
            None => LengthHint::at_least(usize::MAX),
        }
    }
}

impl<K: EntryKind> fmt::Display for EntriesOf<K> {
    ghost use Rattle.std.specs.Prelude.{Some};
    ghost use Rattle.icu_locale_core_keywords_fields.specs.EntryText.{entries_text};

    ghost output = { λ m. Some (entries_text K.needs m) };

    #[tactic(auto, using(writeable::proofs::AnnotatedTextLemmas::text_of_bytes))]
    fn fmt<W: fmt::Write>(&self, f: &mut fmt::Formatter<W>) -> fmt::Result {
        display(self, f)
    }
}

impl<K: EntryKind> fmt::Debug for EntriesOf<K> {
    fn fmt<W: fmt::Write>(&self, f: &mut fmt::Formatter<W>) -> fmt::Result {
        fmt::Debug::fmt(self.as_slice(), f)
    }
}
