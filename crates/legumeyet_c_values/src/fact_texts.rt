//! The texts of facts that are not held as one text.

ghost use Rattle.std.specs.Prelude.{◌≡◌, ◌++◌, false, [], ◌∷◌, is_err, flat_map, encode_utf8_all, OnOk, OnErr};
ghost use Rattle.icu_plurals.specs.Categories.{word};
ghost use Rattle.writeable.specs.AnnotatedText.{bytes};
ghost use Rattle.writeable.specs.Taking.{HasBegun};
ghost use Rattle.legumeyet_c_values.specs.Facts.{blank, spaced};

use icu_plurals::{PluralCategories, PluralCategory, PluralRules};
use writeable::{Error, Sink, Writeable};

// The ten digits of a formatter, one after the other.
#[derive(Clone, Copy, Drop)]
pub(crate) struct TenDigits<'d> {
    pub(crate) digits: &'d [char; 10],
}

// The words of the categories that numbers may have by some rules, with blanks between.
#[derive(Clone, Copy, Drop)]
pub(crate) struct CategoryWords<'r> {
    pub(crate) rules: &'r PluralRules,
}

// Writes characters.
fn write_characters<S: Sink>(characters: &[char], sink: &mut S) -> Result<(), Error>
    requires { S.refused sink.old ≡ false }
    ensures ok { OnOk result (S.takes sink.old (bytes (encode_utf8_all characters.now)) sink.new) }
    ensures refused { S.refused sink.new ≡ is_err result }
    ensures begun { OnErr result
        (HasBegun S.takes S.lacks_room sink.old (bytes (encode_utf8_all characters.now)) sink.new) }
{
    for character in characters {
        sink.write_char(*character)?;
    }
    Ok(())
}

// Writes a blank and the word of a category.
fn write_spaced<S: Sink>(category: PluralCategory, sink: &mut S) -> Result<(), Error>
    requires { S.refused sink.old ≡ false }
    ensures ok { OnOk result (S.takes sink.old (bytes (blank ∷ []) ++ bytes (word category)) sink.new) }
    ensures refused { S.refused sink.new ≡ is_err result }
    ensures begun { OnErr result
        (HasBegun S.takes S.lacks_room sink.old (bytes (blank ∷ []) ++ bytes (word category)) sink.new) }
{
    sink.write_char(' ')?;
    sink.write_str(category.as_str())
}

// Writes a blank and the word of each category that is left.
fn write_others<S: Sink>(categories: PluralCategories, sink: &mut S) -> Result<(), Error>
    requires { S.refused sink.old ≡ false }
    ensures ok { OnOk result (S.takes sink.old (bytes (flat_map spaced categories)) sink.new) }
    ensures refused { S.refused sink.new ≡ is_err result }
    ensures begun { OnErr result
        (HasBegun S.takes S.lacks_room sink.old (bytes (flat_map spaced categories)) sink.new) }
{
    let mut left = categories;
    'category: while let Some(category) = left.next() {
        write_spaced(category, sink)?;
    }
    Ok(())
}

// Writes the first category, and the others after it.
fn write_first<S: Sink>(
    first: PluralCategory,
    others: PluralCategories,
    sink: &mut S,
) -> Result<(), Error>
    requires { S.refused sink.old ≡ false }
    ensures ok { OnOk result (S.takes sink.old (bytes (word first) ++ bytes (flat_map spaced others)) sink.new) }
    ensures refused { S.refused sink.new ≡ is_err result }
    ensures begun { OnErr result
        (HasBegun S.takes S.lacks_room sink.old (bytes (word first) ++ bytes (flat_map spaced others)) sink.new) }
{
    sink.write_str(first.as_str())?;
    write_others(others, sink)
}

impl<'d> Writeable for TenDigits<'d> {
    ghost use Rattle.std.specs.Prelude.{encode_utf8_all};
    ghost use Rattle.writeable.specs.AnnotatedText.{bytes};

    ghost events = { λ text. bytes (encode_utf8_all text.digits.now) };

    fn write_to<S: Sink>(&self, sink: &mut S) -> Result<(), Error> {
        let digits = self.digits;
        write_characters(digits, sink)
    }
}

impl<'r> Writeable for CategoryWords<'r> {
    ghost use Rattle.writeable.specs.AnnotatedText.{bytes};
    ghost use Rattle.icu_plurals.specs.ListedRules.{categories_of};
    ghost use Rattle.legumeyet_c_values.specs.Facts.{spaced_words};

    ghost events = { λ words. bytes (spaced_words (categories_of words.rules.now)) };

    fn write_to<S: Sink>(&self, sink: &mut S) -> Result<(), Error> {
        let mut categories = self.rules.categories();
        match categories.next() {
            Some(first) => write_first(first, categories, sink),
            None => Ok(()),
        }
    }
}
