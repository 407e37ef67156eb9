//! The texts of a locale's symbols.

ghost use Rattle.std.specs.Prelude.{◌≡◌, [], IfOk, IsOk, string_bytes};
ghost use Rattle.std.specs.Cmp.{decided, partial_equiv_from_equiv};
ghost use Rattle.icu_decimal_symbols.specs.Symbols.{HasNoText};
ghost use Rattle.icu_decimal_symbols.specs.SameSymbols.{same_affixes, same_marks, same_strings};
ghost use Rattle.icu_decimal_symbols.specs.SameSymbolsLaws.{same_strings_decides};

use std::alloc::{AllocError, Global};
use std::marker::Model;
use tinystr::TinyAsciiStr;

/// The texts of a locale's symbols while they are put together. Any text may be empty.
///
/// For English the minus sign's prefix is `-`, its suffix empty, the decimal separator `.`, the grouping separator `,`
/// and the numbering system `latn`. Source: UTS 35, part 3 (numbers), number symbols; the type is ICU4X's.
#[derive(Debug, Drop)]
pub struct DecimalSymbolStrsBuilder {
    /// What is before a number with a minus sign: `-` in English.
    pub minus_sign_prefix: String,
    /// What is after a number with a minus sign: nothing in English.
    pub minus_sign_suffix: String,
    /// What is before a number with a plus sign: `+` in English.
    pub plus_sign_prefix: String,
    /// What is after a number with a plus sign: nothing in English.
    pub plus_sign_suffix: String,
    /// What is between the integer digits and the fraction digits: `.` in English.
    pub decimal_separator: String,
    /// What is between two groups of integer digits: `,` in English.
    pub grouping_separator: String,
    /// The numbering system of the digits, as `latn`.
    pub numsys: TinyAsciiStr<8>,
}

impl Model for DecimalSymbolStrsBuilder {
    ghost use Rattle.std.specs.Prelude.{string_bytes};
    ghost use Rattle.icu_decimal_symbols.specs.Symbols.{SymbolStrings};

    ghost Value = { SymbolStrings };

    ghost view = { λ s. record {
      minus_sign_prefix = string_bytes s.minus_sign_prefix;
      minus_sign_suffix = string_bytes s.minus_sign_suffix;
      plus_sign_prefix = string_bytes s.plus_sign_prefix;
      plus_sign_suffix = string_bytes s.plus_sign_suffix;
      decimal_separator = string_bytes s.decimal_separator;
      grouping_separator = string_bytes s.grouping_separator;
      numsys = s.numsys;
    } };
}

impl DecimalSymbolStrsBuilder {
    /// The texts as a formatter reads them: with the decimal separator `.` in the builder, their `decimal_separator` is
    /// `.`. It does not allocate.
    pub fn build(self) -> DecimalSymbolsStrs
        ensures { result ≡ self }
    {
        DecimalSymbolsStrs { texts: self }
    }

    /// A builder with these texts: of those of English one with `-`, `+`, `.`, `,` and `latn`. `build` gives equal
    /// texts.
    ///
    /// `AllocError`: out of memory. It does not allocate where the six texts are empty.
    pub fn from_strs(alloc: Global, strs: &DecimalSymbolsStrs) -> Result<Self, AllocError>
        ensures succeeds { HasNoText strs.now → IsOk result }
        ensures value { IfOk result (λ builder. builder ≡ strs.now) }
    {
        copied(alloc, &strs.texts)
    }

    /// A copy of the builder: of one with `-`, `+`, `.`, `,` and `latn` another with these. `AllocError`: out of
    /// memory. It does not allocate where the six texts are empty.
    pub fn try_clone(&self) -> Result<Self, AllocError>
        ensures succeeds { HasNoText self.now → IsOk result }
        ensures value { IfOk result (λ builder. builder ≡ self.now) }
    {
        copied(*self.minus_sign_prefix.allocator(), self)
    }
}

// The text in a `String` of its own; the empty one does not allocate.
fn owned(alloc: Global, text: &str) -> Result<String, AllocError>
    ensures succeeds { text.now ≡ [] → IsOk result }
    ensures value { IfOk result (λ own. string_bytes own ≡ text.now) }
{
    if text.is_empty() {
        return Ok(String::new(alloc));
    }
    String::from_str(alloc, text)
}

// The same texts in another builder.
fn copied(
    alloc: Global,
    texts: &DecimalSymbolStrsBuilder,
) -> Result<DecimalSymbolStrsBuilder, AllocError>
    ensures succeeds { HasNoText texts.now → IsOk result }
    ensures value { IfOk result (λ builder. builder ≡ texts.now) }
{
    let minus_sign_prefix = owned(alloc, texts.minus_sign_prefix.as_str())?;
    let minus_sign_suffix = owned(alloc, texts.minus_sign_suffix.as_str())?;
    let plus_sign_prefix = owned(alloc, texts.plus_sign_prefix.as_str())?;
    let plus_sign_suffix = owned(alloc, texts.plus_sign_suffix.as_str())?;
    let decimal_separator = owned(alloc, texts.decimal_separator.as_str())?;
    let grouping_separator = owned(alloc, texts.grouping_separator.as_str())?;
    Ok(DecimalSymbolStrsBuilder {
        minus_sign_prefix,
        minus_sign_suffix,
        plus_sign_prefix,
        plus_sign_suffix,
        decimal_separator,
        grouping_separator,
        numsys: texts.numsys,
    })
}

impl PartialEq for DecimalSymbolStrsBuilder {
    ghost eq = { same_strings };

    ghost laws = { partial_equiv_from_equiv (decided same_strings same_strings_decides) };

    fn eq(&self, other: &Self) -> bool {
        have_same_affixes(self, other) && have_same_marks(self, other)
    }
}

impl Eq for DecimalSymbolStrsBuilder {
    ghost laws = { decided same_strings same_strings_decides };
}

// Whether the affixes of both signs are the same.
fn have_same_affixes(a: &DecimalSymbolStrsBuilder, b: &DecimalSymbolStrsBuilder) -> bool
    ensures { result ≡ same_affixes a.now b.now }
{
    a.minus_sign_prefix == b.minus_sign_prefix
        && a.minus_sign_suffix == b.minus_sign_suffix
        && a.plus_sign_prefix == b.plus_sign_prefix
        && a.plus_sign_suffix == b.plus_sign_suffix
}

// Whether the separators and the numbering system are the same.
fn have_same_marks(a: &DecimalSymbolStrsBuilder, b: &DecimalSymbolStrsBuilder) -> bool
    ensures { result ≡ same_marks a.now b.now }
{
    a.decimal_separator == b.decimal_separator
        && a.grouping_separator == b.grouping_separator
        && a.numsys == b.numsys
}

/// The texts of a locale's symbols, as a formatter reads them: in English `-`, `+`, `.`, `,`, two empty suffixes and
/// `latn`.
#[derive(Debug, Drop)]
pub struct DecimalSymbolsStrs {
    texts: DecimalSymbolStrsBuilder,
}

impl Model for DecimalSymbolsStrs {
    ghost use Rattle.icu_decimal_symbols.specs.Symbols.{SymbolStrings};

    ghost Value = { SymbolStrings };

    ghost view = { λ s. s.texts };
}

impl DecimalSymbolsStrs {
    /// What is before a number with a minus sign: `-`. It does not allocate.
    pub fn minus_sign_prefix(&self) -> &str
        ensures { result.now ≡ self.now.minus_sign_prefix }
    {
        let texts = &self.texts;
        texts.minus_sign_prefix.as_str()
    }

    /// What is after a number with a minus sign: nothing in English. It does not allocate.
    pub fn minus_sign_suffix(&self) -> &str
        ensures { result.now ≡ self.now.minus_sign_suffix }
    {
        let texts = &self.texts;
        texts.minus_sign_suffix.as_str()
    }

    /// What is before a number with a plus sign: `+`. It does not allocate.
    pub fn plus_sign_prefix(&self) -> &str
        ensures { result.now ≡ self.now.plus_sign_prefix }
    {
        let texts = &self.texts;
        texts.plus_sign_prefix.as_str()
    }

    /// What is after a number with a plus sign: nothing in English. It does not allocate.
    pub fn plus_sign_suffix(&self) -> &str
        ensures { result.now ≡ self.now.plus_sign_suffix }
    {
        let texts = &self.texts;
        texts.plus_sign_suffix.as_str()
    }

    /// What is between the integer digits and the fraction digits: `.` in English. It does not allocate.
    pub fn decimal_separator(&self) -> &str
        ensures { result.now ≡ self.now.decimal_separator }
    {
        let texts = &self.texts;
        texts.decimal_separator.as_str()
    }

    /// What is between two groups of integer digits: `,` in English. It does not allocate.
    pub fn grouping_separator(&self) -> &str
        ensures { result.now ≡ self.now.grouping_separator }
    {
        let texts = &self.texts;
        texts.grouping_separator.as_str()
    }

    /// The numbering system of the digits: `latn` in English. It does not allocate.
    pub fn numsys(&self) -> &str
        ensures { result.now ≡ self.now.numsys }
    {
        let texts = &self.texts;
        texts.numsys.as_str()
    }

    /// The numbering system as a small text, which is copied: `latn` in English. It does not allocate.
    pub fn system(&self) -> TinyAsciiStr<8>
        ensures { result ≡ self.now.numsys }
    {
        let texts = &self.texts;
        texts.numsys
    }

    /// A copy of the texts: of those of English `-`, `+`, `.`, `,` and `latn`. `AllocError`: out of memory. It does not
    /// allocate where the six texts are empty.
    pub fn try_clone(&self) -> Result<Self, AllocError>
        ensures succeeds { HasNoText self.now → IsOk result }
        ensures value { IfOk result (λ texts. texts ≡ self.now) }
    {
        let texts = self.texts.try_clone()?;
        Ok(DecimalSymbolsStrs { texts })
    }
}

impl PartialEq for DecimalSymbolsStrs {
    ghost eq = { same_strings };

    ghost laws = { partial_equiv_from_equiv (decided same_strings same_strings_decides) };

    fn eq(&self, other: &Self) -> bool {
        self.texts == other.texts
    }
}

impl Eq for DecimalSymbolsStrs {
    ghost laws = { decided same_strings same_strings_decides };
}
