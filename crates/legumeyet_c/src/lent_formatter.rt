//! What writes numbers, borrowed for a call.

ghost use Rattle.std.specs.Prelude.{◌≡◌, None, IfSome, option_map};
ghost use Rattle.icu_decimal_direct.specs.TextTables.{text_tables};
ghost use Rattle.locale_numbers.specs.FoundRules.{rules_held};
ghost use Rattle.locale_numbers_formatter.specs.FormatText.{fractions_in};
ghost use Rattle.legumeyet_c.specs.Writing.{asked_for, asked_plainly, significand_by, wording_by};

use crate::direct::texts_with;
use icu_decimal_direct::TextTables;
use icu_dimension_fractions::FractionInfo;
use icu_plurals::{PluralRules, PluralRulesWithRanges};
use locale_numbers_formats::NumberOptions;
use locale_numbers_formatter::{FormatterKind, NumberFormatter, ScientificFormatter};
use std::alloc::Global;
use std::marker::Model;

// The same formatter. It does not allocate.
pub(crate) fn copied<'a>(formatter: &'a NumberFormatter<'static>) -> NumberFormatter<'a>
    ensures { result ≡ formatter.now }
{
    match formatter.kind() {
        FormatterKind::Plain(formatter) => NumberFormatter::from(*formatter),
        FormatterKind::Compact(formatter) => NumberFormatter::from(*formatter),
        FormatterKind::CompactDigits(formatter) => NumberFormatter::from(*formatter),
        FormatterKind::Scientific(formatter) => NumberFormatter::from(*formatter),
        FormatterKind::Percent(formatter) => NumberFormatter::from(*formatter),
        FormatterKind::Currency(formatter) => NumberFormatter::of_amounts(formatter),
    }
}

// Scientific numbers with what options make of their significand; none where numbers are written otherwise. It does not
// allocate.
fn significand_by<'a>(
    alloc: Global,
    formatter: &NumberFormatter<'a>,
    options: &NumberOptions,
) -> Option<NumberFormatter<'a>>
    ensures { result ≡ significand_by options.now formatter.now }
{
    match formatter.kind() {
        FormatterKind::Scientific(own) => {
            let changed = ScientificFormatter::new(alloc, *own.tables(), own.style(), *options);
            Some(NumberFormatter::from(changed))
        }
        FormatterKind::Plain(_)
        | FormatterKind::Compact(_)
        | FormatterKind::CompactDigits(_)
        | FormatterKind::Percent(_)
        | FormatterKind::Currency(_) => None,
    }
}

// What writes numbers, or where there are rules the words of their plural categories, borrowed for a call.
#[derive(Drop)]
pub(crate) struct LentFormatter<'a> {
    pub(crate) formatter: NumberFormatter<'a>,
    pub(crate) plurals: Option<PluralRulesWithRanges<'a>>,
}

impl<'a> Model for LentFormatter<'a> {
    ghost use Rattle.std.specs.Prelude.{option_map};
    ghost use Rattle.locale_numbers.specs.FoundRules.{rules_held};
    ghost use Rattle.legumeyet_c.specs.HeldFormats.{Wording};

    ghost Value = { Wording };

    ghost view = { λ l. record { tables = l.formatter; plurals = option_map rules_held l.plurals } };
}

impl<'a> LentFormatter<'a> {
    // The formatter. It does not allocate.
    pub(crate) fn get(&self) -> &NumberFormatter<'a>
        ensures { result.now ≡ self.now.tables }
    {
        &self.formatter
    }

    // The rules, where words are written. It does not allocate.
    pub(crate) fn plurals(&self) -> Option<PluralRulesWithRanges<'a>>
        ensures { option_map rules_held result ≡ self.now.plurals }
    {
        self.plurals
    }

    // The rules alone, where words are written. It does not allocate.
    pub(crate) fn rules(&self) -> Option<&'a PluralRules>
        ensures { option_map (λ rules. rules.now) result ≡ option_map (λ plurals. plurals.0) self.now.plurals }
    {
        match self.plurals {
            Some(plurals) => Some(plurals.rules),
            None => None,
        }
    }

    // The same over scientific numbers, with what options make of their significand; none where numbers are written
    // otherwise. It does not allocate.
    pub(crate) fn wording_by(
        &self,
        alloc: Global,
        options: &NumberOptions,
    ) -> Option<LentFormatter<'a>>
        ensures { result ≡ wording_by options.now self.now }
    {
        match significand_by(alloc, &self.formatter, options) {
            Some(formatter) => Some(LentFormatter {
                formatter,
                plurals: self.plurals,
            }),
            None => None,
        }
    }

    // The digits of the currency, where it writes amounts. It does not allocate.
    pub(crate) fn fractions(&self) -> Option<FractionInfo>
        ensures { result ≡ fractions_in self.now.tables }
    {
        self.formatter.fractions()
    }

    // What texts are put with directly with these options, where that can be. It does not allocate.
    pub(crate) fn texts(&self, options: &NumberOptions) -> Option<TextTables<'a>>
        ensures { IfSome result
            (λ texts. asked_plainly (text_tables texts) ≡ asked_for self.now options.now) }
    {
        texts_with(&self.formatter, self.plurals, options)
    }
}
