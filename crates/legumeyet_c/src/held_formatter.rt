//! What a handle writes numbers with: tables of its own, or those of a book that is kept.

ghost use Rattle.std.specs.Prelude.{◌≡◌, Ok, IfOk, IfSome, IsErrOf, option_map};
ghost use Rattle.icu_decimal.specs.PlainReading.{IsAnswered};
ghost use Rattle.icu_decimal_direct.specs.TextTables.{text_tables};
ghost use Rattle.locale_numbers.specs.FoundRules.{rules_held};
ghost use Rattle.locale_numbers_formatter.specs.FormatReading.{format_reading, reader_of};
ghost use Rattle.locale_numbers_formatter.specs.FormatTyped.{format_typed_reading, typed_of};
ghost use Rattle.locale_numbers_formatter.specs.Regrouped.{regrouped};
ghost use Rattle.legumeyet_c.specs.HeldFormats.{ReadAllocates, TypedReadAllocates, held_format, plurals_at, second_at, tables_at};
ghost use Rattle.legumeyet_c.specs.Reading.{exact_reading, typed_reading};
ghost use Rattle.legumeyet_c.specs.Writing.{AreWordsAsked, asked_for, asked_plainly};

use crate::direct::{is_as_given, texts_with};
use crate::held_plurals::{PluralsPlace, kept_plurals_of, own_plurals_of};
use crate::lent_formatter::{LentFormatter, copied};
use fixed_decimal::Decimal;
use icu_decimal::error::ReadError;
use icu_decimal::options::GroupingStrategy;
use icu_decimal_direct::TextTables;
use icu_plurals::{PluralRules, PluralRulesWithRanges};
use locale_numbers_formats::{NumberFormat, NumberOptions};
use locale_numbers_formatter::{
    LenientNumberReader, NumberFormatter, NumberReader, OwnNumberTables,
};
use std::alloc::{AllocError, Global};
use std::marker::Model;

// Where the tables are; beside them second ones, by which what people type is read too.
#[derive(Drop)]
pub(crate) enum FormatPlace {
    // In memory of their own.
    Own(Box<OwnNumberTables>, Option<Box<OwnNumberTables>>),
    // In a book that is kept.
    Kept(NumberFormatter<'static>, Option<NumberFormatter<'static>>),
}

/// What a handle writes numbers with, and whether its own options show them as they are given. Where it is of a kept book
/// it has what their texts are then put with directly, the reader of them, and that of what people type, each reader from
/// the first text on that is read so. With rules it writes the words of plural categories. A contract sees both tables,
/// the rules and the options.
#[derive(Drop)]
pub struct HeldFormatter {
    place: FormatPlace,
    plurals: Option<PluralsPlace>,
    options: NumberOptions,
    as_given: bool,
    texts: Option<TextTables<'static>>,
    exact: Option<Box<NumberReader<'static>>>,
    typed: Option<Box<LenientNumberReader<'static>>>,
}

impl Model for HeldFormatter {
    ghost use Rattle.std.specs.Prelude.{◌≡◌, IfSome};
    ghost use Rattle.icu_decimal_direct.specs.TextTables.{text_tables};
    ghost use Rattle.locale_numbers_formatter.specs.FormatReading.{reader_of};
    ghost use Rattle.locale_numbers_formatter.specs.FormatTyped.{typed_of};
    ghost use Rattle.legumeyet_c.specs.HeldFormats.{HeldFormat, held_at, second_at, tables_at};
    ghost use Rattle.legumeyet_c.specs.Writing.{asked_for, asked_plainly, is_as_given};

    ghost Value = { HeldFormat };

    ghost view = { λ h. held_at h.place h.plurals h.options };

    ghost invariant = { λ h.
        (h.as_given ≡ is_as_given (asked_for (held_at h.place h.plurals h.options).wording h.options))
        × IfSome h.texts (λ texts. asked_plainly (text_tables texts) ≡ asked_for (held_at h.place h.plurals h.options).wording h.options)
        × IfSome h.exact (λ reader. reader.value ≡ reader_of (tables_at h.place))
        × IfSome h.typed (λ reader. reader.value ≡ typed_of (tables_at h.place) (second_at h.place)) };
}

// A copy of what a formatter writes with, with a strategy. `AllocError`: out of memory.
fn own_of(
    alloc: Global,
    formatter: &NumberFormatter<'_>,
    strategy: GroupingStrategy,
) -> Result<Box<OwnNumberTables>, AllocError>
    ensures { IfOk result (λ own. own.value ≡ regrouped strategy formatter.now) }
{
    let own = OwnNumberTables::try_of(alloc, formatter, strategy)?;
    match Box::new(alloc, own) {
        Ok(own) => Ok(own),
        Err(_) => Err(AllocError),
    }
}

// The same of a formatter, where there is one.
fn own_of_optional(
    alloc: Global,
    second: Option<&NumberFormatter<'_>>,
    strategy: GroupingStrategy,
) -> Result<Option<Box<OwnNumberTables>>, AllocError>
    ensures { IfOk result (λ own. option_map (λ tables. tables.value) own
        ≡ option_map (regrouped strategy) (option_map (λ formatter. formatter.now) second.entry)) }
{
    let Some(formatter) = second else {
        return Ok(None);
    };
    match own_of(alloc, formatter, strategy) {
        Ok(own) => Ok(Some(own)),
        Err(refused) => Err(refused),
    }
}

// A value in a box, where memory is not refused.
fn boxed<T: Drop>(alloc: Global, value: T) -> Option<Box<T>>
    ensures { IfSome result (λ kept. kept.value ≡ value) }
{
    match Box::new(alloc, value) {
        Ok(kept) => Some(kept),
        Err(_) => None,
    }
}

impl FormatPlace {
    // Whether the tables are its own.
    fn is_own(&self) -> bool {
        match self {
            FormatPlace::Own(_, _) => true,
            FormatPlace::Kept(_, _) => false,
        }
    }

    // What numbers are written with by the tables, borrowed for a call. It does not allocate.
    fn lent(&self) -> NumberFormatter<'_>
        ensures { result ≡ tables_at self.now }
    {
        match self {
            FormatPlace::Own(own, _) => own.lent(),
            FormatPlace::Kept(formatter, _) => copied(formatter),
        }
    }

    // The reader of what is written, to be kept. `None`: out of memory, or the tables are its own.
    fn exact_reader(&self, alloc: Global) -> Option<Box<NumberReader<'static>>>
        ensures { IfSome result (λ reader. reader.value ≡ reader_of (tables_at self.now)) }
    {
        let FormatPlace::Kept(formatter, _) = self else {
            return None;
        };
        match formatter.reader(alloc) {
            Ok(reader) => boxed(alloc, reader),
            Err(_) => None,
        }
    }

    // The reader of what people type, to be kept. `None`: out of memory, or the tables are its own.
    fn typed_reader(&self, alloc: Global) -> Option<Box<LenientNumberReader<'static>>>
        ensures { IfSome result (λ reader. reader.value ≡ typed_of (tables_at self.now) (second_at self.now)) }
    {
        let FormatPlace::Kept(formatter, second) = self else {
            return None;
        };
        match formatter.lenient_reader(alloc, second.as_ref()) {
            Ok(reader) => boxed(alloc, reader),
            Err(_) => None,
        }
    }

    // A copy of the tables that formatters borrow, with a strategy. `AllocError`: out of memory.
    fn own(
        alloc: Global,
        formatter: &NumberFormatter<'_>,
        second: Option<&NumberFormatter<'_>>,
        strategy: GroupingStrategy,
    ) -> Result<FormatPlace, AllocError>
        ensures tables { IfOk result (λ own. tables_at own ≡ regrouped strategy formatter.now) }
        ensures second { IfOk result (λ own. second_at own
            ≡ option_map (regrouped strategy) (option_map (λ f. f.now) second.entry)) }
    {
        let own = own_of(alloc, formatter, strategy)?;
        match own_of_optional(alloc, second, strategy) {
            Ok(second) => Ok(FormatPlace::Own(own, second)),
            Err(refused) => Err(refused),
        }
    }
}

impl HeldFormatter {
    // What writes with tables that are borrowed for the rest of the run. It does not allocate.
    pub(crate) fn kept(
        formatter: NumberFormatter<'static>,
        plurals: Option<PluralRulesWithRanges<'static>>,
        second: Option<NumberFormatter<'static>>,
        options: NumberOptions,
    ) -> HeldFormatter
        ensures { result ≡ held_format formatter.entry (option_map rules_held plurals.entry) second.entry options }
    {
        let texts = texts_with(&formatter, plurals, &options);
        let place = FormatPlace::Kept(formatter, second);
        let as_given = is_as_given(&place.lent(), &options);
        HeldFormatter {
            place,
            plurals: kept_plurals_of(plurals),
            options,
            as_given,
            texts,
            exact: None,
            typed: None,
        }
    }

    // A copy of what formatters and rules borrow, with the strategy of the format. `AllocError`: out of memory.
    pub(crate) fn own(
        alloc: Global,
        formatter: &NumberFormatter<'_>,
        plurals: Option<&PluralRulesWithRanges<'_>>,
        second: Option<&NumberFormatter<'_>>,
        format: &NumberFormat,
    ) -> Result<HeldFormatter, AllocError>
        ensures { IfOk result (λ held. held ≡ held_format (regrouped format.now.shape.grouping formatter.now)
            (option_map rules_held (option_map (λ p. p.now) plurals.entry))
            (option_map (regrouped format.now.shape.grouping) (option_map (λ f. f.now) second.entry))
            format.now.options) }
    {
        let place = FormatPlace::own(alloc, formatter, second, format.shape.grouping)?;
        let as_given = is_as_given(&place.lent(), &format.options);
        match own_plurals_of(alloc, plurals) {
            Ok(plurals) => Ok(HeldFormatter {
                place,
                plurals,
                options: format.options,
                as_given,
                texts: None,
                exact: None,
                typed: None,
            }),
            Err(refused) => Err(refused),
        }
    }

    // What is made of a number, where a call does not say. It does not allocate.
    pub(crate) fn options(&self) -> &NumberOptions
        ensures { result.now ≡ self.now.options }
    {
        &self.options
    }

    // What texts are put with directly with its own options, where that is known. It does not allocate.
    pub(crate) fn texts(&self) -> Option<&TextTables<'static>>
        ensures { IfSome result
            (λ texts. asked_plainly (text_tables texts.now) ≡ asked_for self.now.wording self.now.options) }
    {
        self.texts.as_ref()
    }

    // The same, made for a call, where the tables are its own and its options show numbers as they are given. It does not
    // allocate.
    pub(crate) fn made_texts(&self) -> Option<TextTables<'_>>
        ensures { IfSome result
            (λ texts. asked_plainly (text_tables texts) ≡ asked_for self.now.wording self.now.options) }
    {
        if !self.as_given || self.plurals.is_some() || !self.place.is_own() {
            return None;
        }
        let borrowed = self.lent();
        match borrowed.texts(self.options()) {
            Some(texts) => Some(texts),
            None => None,
        }
    }

    // The rules, borrowed for a call, where words are written. It does not allocate.
    fn lent_plurals(&self) -> Option<PluralRulesWithRanges<'_>>
        ensures { option_map rules_held result ≡ self.now.wording.plurals }
    {
        match &self.plurals {
            Some(plurals) => Some(plurals.lent()),
            None => None,
        }
    }

    // The rules, where the words of numbers as they are given are written with its own options. It does not allocate.
    pub(crate) fn rules(&self) -> Option<&PluralRules>
        ensures { IfSome result
            (λ rules. AreWordsAsked rules.now (Ok (asked_for self.now.wording self.now.options))) }
    {
        if !self.as_given {
            return None;
        }
        match self.lent_plurals() {
            Some(plurals) => Some(plurals.rules),
            None => None,
        }
    }

    // What numbers are written with by the tables, borrowed for a call. It does not allocate.
    fn lent_tables(&self) -> NumberFormatter<'_>
        ensures { result ≡ self.now.wording.tables }
    {
        self.place.lent()
    }

    // What writes with the tables and the rules, borrowed for a call. It does not allocate.
    pub(crate) fn lent(&self) -> LentFormatter<'_>
        ensures { result ≡ self.now.wording }
    {
        LentFormatter {
            formatter: self.lent_tables(),
            plurals: self.lent_plurals(),
        }
    }

    // The second one, borrowed for a call, where there is one. It does not allocate.
    fn lent_second(&self) -> Option<NumberFormatter<'_>>
        ensures { result ≡ self.now.second }
    {
        match &self.place {
            FormatPlace::Own(_, Some(own)) => Some(own.lent()),
            FormatPlace::Kept(_, Some(formatter)) => Some(copied(formatter)),
            FormatPlace::Own(_, None) | FormatPlace::Kept(_, None) => None,
        }
    }

    // Puts the affixes of the signs together, unless they are, where they can be kept and memory is not refused.
    pub(crate) fn keep_exact_reader(&mut self, alloc: Global)
        ensures { self.new ≡ self.old }
    {
        if self.exact.is_none() && self.plurals.is_none() {
            let reader = self.place.exact_reader(alloc);
            self.exact = reader;
        }
    }

    // Folds symbols, affixes and the unit, unless they are, where they can be kept and memory is not refused.
    pub(crate) fn keep_typed_reader(&mut self, alloc: Global)
        ensures { self.new ≡ self.old }
    {
        if self.typed.is_none() && self.plurals.is_none() {
            let reader = self.place.typed_reader(alloc);
            self.typed = reader;
        }
    }

    // The number whose text this is by the tables, by the reader that is kept, or by one that is made for it.
    fn read_number(&self, alloc: Global, text: &str) -> Result<Decimal, ReadError>
        ensures answered { IsAnswered result (format_reading self.now.wording.tables text.now) }
        ensures memory { IsErrOf result ReadError.Memory → ReadAllocates self.now text.now }
    {
        if let Some(reader) = &self.exact {
            return reader.read(alloc, text);
        }
        match self.lent_tables().reader(alloc) {
            Ok(reader) => reader.read(alloc, text),
            Err(_) => Err(ReadError::Memory),
        }
    }

    // The number that was typed, by a reader that is made for it.
    fn read_typed_once(&self, alloc: Global, text: &str) -> Result<Decimal, ReadError>
        ensures answered { IsAnswered result
            (format_typed_reading self.now.wording.tables self.now.second text.now) }
        ensures memory { IsErrOf result ReadError.Memory → TypedReadAllocates self.now text.now }
    {
        let second = self.lent_second();
        match self.lent_tables().lenient_reader(alloc, second.as_ref()) {
            Ok(reader) => reader.read(alloc, text),
            Err(_) => Err(ReadError::Memory),
        }
    }

    // The same by the reader that is kept, where there is one.
    fn read_typed_number(&self, alloc: Global, text: &str) -> Result<Decimal, ReadError>
        ensures answered { IsAnswered result
            (format_typed_reading self.now.wording.tables self.now.second text.now) }
        ensures memory { IsErrOf result ReadError.Memory → TypedReadAllocates self.now text.now }
    {
        match &self.typed {
            Some(reader) => reader.read(alloc, text),
            None => self.read_typed_once(alloc, text),
        }
    }

    // The number whose text this is: none, where words are written.
    pub(crate) fn read(&self, alloc: Global, text: &str) -> Result<Decimal, ReadError>
        ensures answered { IsAnswered result (exact_reading self.now text.now) }
        ensures memory { IsErrOf result ReadError.Memory → ReadAllocates self.now text.now }
    {
        match &self.plurals {
            Some(_) => Err(ReadError::Unreadable),
            None => self.read_number(alloc, text),
        }
    }

    // The number that was typed: none, where words are written.
    pub(crate) fn read_typed(&self, alloc: Global, text: &str) -> Result<Decimal, ReadError>
        ensures answered { IsAnswered result (typed_reading self.now text.now) }
        ensures memory { IsErrOf result ReadError.Memory → TypedReadAllocates self.now text.now }
    {
        match &self.plurals {
            Some(_) => Err(ReadError::Unreadable),
            None => self.read_typed_number(alloc, text),
        }
    }
}
