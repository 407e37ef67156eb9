//! What numbers of a format are written with, in memory of their own.

ghost use Rattle.std.specs.Prelude.{◌≡◌, IfOk, IsOk};
ghost use Rattle.icu_decimal.specs.HeldCompact.{compact_tables_of};
ghost use Rattle.icu_decimal.specs.HeldTables.{tables_of};
ghost use Rattle.icu_decimal_scientific.specs.HeldTables.{settings_of as scientific_settings};
ghost use Rattle.icu_dimension.specs.HeldFormatters.{code_of, currency_settings_of, settings_of_percent, sign_of};
ghost use Rattle.icu_dimension.specs.HeldUnits.{settings_of};
ghost use Rattle.locale_numbers_formatter.specs.FormatText.{compact_tables, digits_tables, plain_tables, scientific_tables, unit_tables};
ghost use Rattle.locale_numbers_formatter.specs.HeldDigits.{compact_held, options_held};
ghost use Rattle.locale_numbers_formatter.specs.HeldFormats.{currency_format, percent_format};
ghost use Rattle.locale_numbers_formatter.specs.HeldScientific.{scientific_format, scientific_held};
ghost use Rattle.locale_numbers_formatter.specs.Regrouped.{HasNoTexts, compact_regrouped, plain_regrouped, regrouped, scientific_regrouped, unit_regrouped};

use crate::compact_digits::CompactDigitsFormatter;
use crate::number_formatter::{FormatterKind, NumberFormatter};
use crate::scientific::ScientificFormatter;
use icu_decimal::options::GroupingStrategy;
use icu_decimal::plurals::PluralRules;
use icu_decimal::provider::CompactPatterns;
use icu_decimal::{CompactDecimalFormatter, DecimalFormatter, OwnedDecimalTables};
use icu_decimal_scientific::ScientificTables;
use icu_dimension::provider::CurrencySymbol;
use icu_dimension::{
    CurrencyCode, CurrencyFormatter, FractionInfo, LetterEnds, PercentFormatter, PercentSign,
    UnitKind, UnitPattern, UnitTables,
};
use locale_numbers_formats::{NumberOptions, ScientificStyle};
use std::alloc::{AllocError, Global};
use std::marker::Model;

// What plain numbers are written with, plural rules, and a table of patterns.
#[derive(Drop)]
pub(crate) struct OwnCompactTables {
    plain: OwnedDecimalTables,
    rules: PluralRules,
    patterns: CompactPatterns,
}

impl Model for OwnCompactTables {
    ghost use Rattle.icu_decimal.specs.CompactTables.{CompactTables};

    ghost Value = { CompactTables };

    ghost view = { λ t. record { plain = t.plain; rules = t.rules; patterns = t.patterns } };
}

// What plain numbers are written with, a pattern, and a unit. Which ends of its text are letters was looked at when the
// pattern was chosen, and is not kept.
#[derive(Drop)]
pub(crate) struct OwnUnitTables {
    decimals: OwnedDecimalTables,
    pattern: UnitPattern,
    kind: UnitKind,
    symbol: CurrencySymbol,
}

impl Model for OwnUnitTables {
    ghost use Rattle.icu_dimension.specs.UnitText.{UnitSettings};

    ghost Value = { UnitSettings };

    ghost view = { λ t. record {
      tables = t.decimals;
      pattern = t.pattern;
      unit = record { kind = t.kind; text = t.symbol.text };
    } };
}

// What significands are written with, the text before exponents, and what these are written with.
#[derive(Drop)]
pub(crate) struct OwnScientificTables {
    decimals: OwnedDecimalTables,
    separator: String,
    exponents: OwnedDecimalTables,
}

impl Model for OwnScientificTables {
    ghost use Rattle.std.specs.Prelude.{string_bytes};
    ghost use Rattle.icu_decimal_scientific.specs.ExponentialText.{ScientificSettings};

    ghost Value = { ScientificSettings };

    ghost view = { λ t. record {
      tables = t.decimals;
      separator = string_bytes t.separator;
      exponents = t.exponents;
    } };
}

// Of which kind they are.
#[derive(Drop)]
pub(crate) enum OwnTables {
    // Of plain numbers.
    Plain(OwnedDecimalTables),
    // Of compact numbers.
    Compact(OwnCompactTables),
    // Of compact numbers with digits of their own, with the options of these.
    CompactDigits(OwnCompactTables, NumberOptions),
    // Of percents, with their sign.
    Percent(OwnUnitTables, PercentSign),
    // Of amounts, with the code of their currency and its digits.
    Currency(OwnUnitTables, CurrencyCode, FractionInfo),
    // Of scientific numbers, with their style and the options of their digits.
    Scientific(OwnScientificTables, ScientificStyle, NumberOptions),
}

impl OwnCompactTables {
    // A copy of what a formatter borrows, with this strategy.
    fn of(
        alloc: Global,
        formatter: &CompactDecimalFormatter<'_>,
        strategy: GroupingStrategy,
    ) -> Result<OwnCompactTables, AllocError>
        ensures { IfOk result (λ own. own ≡ compact_regrouped strategy (compact_tables_of formatter.now)) }
    {
        let plain = OwnedDecimalTables::try_from_tables(formatter.plain().tables(), strategy)?;
        let rules = formatter.rules().try_clone(alloc)?;
        let patterns = formatter.patterns().try_clone()?;
        Ok(OwnCompactTables {
            plain,
            rules,
            patterns,
        })
    }

    // The formatter that writes with them.
    fn formatter(&self) -> CompactDecimalFormatter<'_>
        ensures { compact_tables_of result ≡ self.now }
    {
        let plain = DecimalFormatter::from(self.plain.tables());
        CompactDecimalFormatter::from_tables(plain, &self.rules, &self.patterns)
    }
}

// The text of a unit, as that of a symbol.
fn symbol_of(alloc: Global, text: &str) -> Result<CurrencySymbol, AllocError>
    ensures { IfOk result (λ symbol. symbol.text ≡ text.now) }
{
    let text = String::from_str(alloc, text)?;
    Ok(CurrencySymbol {
        text,
        ends: LetterEnds {
            first: false,
            last: false,
        },
    })
}

impl OwnUnitTables {
    // A copy of these tables, with this strategy.
    fn of(
        alloc: Global,
        tables: &UnitTables<'_>,
        strategy: GroupingStrategy,
    ) -> Result<OwnUnitTables, AllocError>
        ensures { IfOk result (λ own. own ≡ unit_regrouped strategy (settings_of tables.now)) }
    {
        let decimals = OwnedDecimalTables::try_from_tables(tables.decimals(), strategy)?;
        let pattern = tables.pattern().try_clone(alloc)?;
        let unit = tables.unit();
        let symbol = symbol_of(alloc, unit.text)?;
        Ok(OwnUnitTables {
            decimals,
            pattern,
            kind: unit.kind,
            symbol,
        })
    }

    // The formatter of percents that writes with them.
    fn percents(&self, sign: PercentSign) -> PercentFormatter<'_>
        requires { self.now.unit.kind ≡ UnitKind.Percent }
        ensures sign { sign_of result ≡ sign }
        ensures value { settings_of_percent result ≡ self.now }
    {
        let text = self.symbol.text.as_str();
        PercentFormatter::from_parts(self.decimals.tables(), &self.pattern, sign, text)
    }

    // The formatter of amounts that writes with them.
    fn amounts(&self, code: CurrencyCode, fractions: FractionInfo) -> CurrencyFormatter<'_>
        requires { self.now.unit.kind ≡ UnitKind.Currency }
        ensures code { code_of result ≡ code }
        ensures value { currency_settings_of result ≡ record { unit = self.now; fractions = fractions } }
    {
        let symbol = Some(&self.symbol);
        let decimals = self.decimals.tables();
        CurrencyFormatter::from_parts(decimals, &self.pattern, symbol, code, fractions)
    }
}

impl OwnScientificTables {
    // A copy of these tables, with this strategy of the significand.
    fn of(
        alloc: Global,
        tables: &ScientificTables<'_>,
        strategy: GroupingStrategy,
    ) -> Result<OwnScientificTables, AllocError>
        ensures { IfOk result (λ own. own ≡ scientific_regrouped strategy (scientific_settings tables.now)) }
    {
        let decimals = OwnedDecimalTables::try_from_tables(tables.decimals(), strategy)?;
        let own = tables.exponents();
        let exponents = OwnedDecimalTables::try_from_tables(own, own.strategy())?;
        let separator = String::from_str(alloc, tables.separator())?;
        Ok(OwnScientificTables {
            decimals,
            separator,
            exponents,
        })
    }

    // The tables, lent.
    fn tables(&self) -> ScientificTables<'_>
        ensures { scientific_settings result ≡ self.now }
    {
        let (decimals, exponents) = (self.decimals.tables(), self.exponents.tables());
        ScientificTables::with_exponents(&decimals, self.separator.as_str(), &exponents)
    }

    // The formatter that writes with them.
    fn formatter(&self, style: ScientificStyle, options: NumberOptions) -> ScientificFormatter<'_>
        ensures { scientific_held result ≡ record { settings = self.now; style = style; options = options } }
    {
        let alloc = *self.separator.allocator();
        ScientificFormatter::new(alloc, self.tables(), style, options)
    }
}

/// What numbers of a format are written with, in memory of their own, which lend a formatter: of that of the percents of
/// English, with `Never`, one that writes 1234 as `1234%`.
///
/// A clause sees what is written with.
#[derive(Drop)]
pub struct OwnNumberTables {
    tables: OwnTables,
}

impl Model for OwnNumberTables {
    ghost use Rattle.locale_numbers_formatter.specs.FormatText.{FormatTables};

    ghost Value = { FormatTables };

    ghost use Rattle.locale_numbers_formatter.specs.HeldTables.{IsOfKind, format_owned};

    ghost view = { λ t. format_owned t.tables };

    ghost invariant = { λ t. IsOfKind t.tables };
}

impl OwnNumberTables {
    // Those of plain numbers.
    fn of_plain(
        formatter: &DecimalFormatter<'_>,
        strategy: GroupingStrategy,
    ) -> Result<OwnNumberTables, AllocError>
        ensures succeeds { HasNoTexts (plain_tables (tables_of formatter.now)) → IsOk result }
        ensures value { IfOk result
            (λ own. own ≡ plain_tables (plain_regrouped strategy (tables_of formatter.now))) }
    {
        let tables = OwnedDecimalTables::try_from_tables(formatter.tables(), strategy)?;
        Ok(OwnNumberTables {
            tables: OwnTables::Plain(tables),
        })
    }

    // Those of compact numbers.
    fn of_compact(
        alloc: Global,
        formatter: &CompactDecimalFormatter<'_>,
        strategy: GroupingStrategy,
    ) -> Result<OwnNumberTables, AllocError>
        ensures { IfOk result
            (λ own. own ≡ compact_tables (compact_regrouped strategy (compact_tables_of formatter.now))) }
    {
        let tables = OwnCompactTables::of(alloc, formatter, strategy)?;
        Ok(OwnNumberTables {
            tables: OwnTables::Compact(tables),
        })
    }

    // Those of compact numbers with digits of their own.
    fn of_digits(
        alloc: Global,
        formatter: &CompactDigitsFormatter<'_>,
        strategy: GroupingStrategy,
    ) -> Result<OwnNumberTables, AllocError>
        ensures { IfOk result (λ own. own
            ≡ digits_tables (compact_regrouped strategy (compact_held formatter.now)) (options_held formatter.now)) }
    {
        let tables = OwnCompactTables::of(alloc, &formatter.compact, strategy)?;
        Ok(OwnNumberTables {
            tables: OwnTables::CompactDigits(tables, formatter.options),
        })
    }

    // Those of percents.
    fn of_percent(
        alloc: Global,
        formatter: &PercentFormatter<'_>,
        strategy: GroupingStrategy,
    ) -> Result<OwnNumberTables, AllocError>
        ensures { IfOk result (λ own. own
            ≡ unit_tables
            (percent_format (sign_of formatter.now) (unit_regrouped strategy (settings_of_percent formatter.now)))) }
    {
        let tables = OwnUnitTables::of(alloc, &formatter.tables(), strategy)?;
        Ok(OwnNumberTables {
            tables: OwnTables::Percent(tables, formatter.sign()),
        })
    }

    // Those of amounts.
    fn of_currency(
        alloc: Global,
        formatter: &CurrencyFormatter<'_>,
        strategy: GroupingStrategy,
    ) -> Result<OwnNumberTables, AllocError>
        ensures { IfOk result (λ own. own
            ≡ regrouped strategy
            (unit_tables (currency_format (code_of formatter.now) (currency_settings_of formatter.now)))) }
    {
        let tables = OwnUnitTables::of(alloc, &formatter.tables(), strategy)?;
        Ok(OwnNumberTables {
            tables: OwnTables::Currency(tables, formatter.code(), formatter.fractions()),
        })
    }

    // Those of scientific numbers.
    fn of_scientific(
        alloc: Global,
        formatter: &ScientificFormatter<'_>,
        strategy: GroupingStrategy,
    ) -> Result<OwnNumberTables, AllocError>
        ensures { IfOk result (λ own. own ≡ regrouped strategy (scientific_format formatter.now)) }
    {
        let tables = OwnScientificTables::of(alloc, &formatter.tables, strategy)?;
        Ok(OwnNumberTables {
            tables: OwnTables::Scientific(tables, formatter.style, formatter.options),
        })
    }

    /// A copy of what the formatter writes with, with this strategy: of that of the percents of English, with `Never`, one
    /// that writes 1234 as `1234%`.
    ///
    /// It allocates, but of plain numbers where the six texts of the symbols are empty. `AllocError`: out of memory.
    pub fn try_of(
        alloc: Global,
        formatter: &NumberFormatter<'_>,
        strategy: GroupingStrategy,
    ) -> Result<OwnNumberTables, AllocError>
        ensures succeeds { HasNoTexts formatter.now → IsOk result }
        ensures value { IfOk result (λ own. own ≡ regrouped strategy formatter.now) }
    {
        match &formatter.kind {
            FormatterKind::Plain(formatter) => OwnNumberTables::of_plain(formatter, strategy),
            FormatterKind::Compact(formatter) => {
                OwnNumberTables::of_compact(alloc, formatter, strategy)
            }
            FormatterKind::CompactDigits(formatter) => {
                OwnNumberTables::of_digits(alloc, formatter, strategy)
            }
            FormatterKind::Percent(formatter) => {
                OwnNumberTables::of_percent(alloc, formatter, strategy)
            }
            FormatterKind::Currency(formatter) => {
                OwnNumberTables::of_currency(alloc, formatter, strategy)
            }
            FormatterKind::Scientific(formatter) => {
                OwnNumberTables::of_scientific(alloc, formatter, strategy)
            }
        }
    }

    /// The formatter that writes with them: of a copy of that of the percents of English what writes -12.5 as `-12.5%`. It
    /// does not allocate.
    pub fn lent(&self) -> NumberFormatter<'_>
        ensures { result ≡ self.now }
    {
        let kind = match &self.tables {
            OwnTables::Plain(tables) => {
                FormatterKind::Plain(DecimalFormatter::from(tables.tables()))
            }
            OwnTables::Compact(tables) => FormatterKind::Compact(tables.formatter()),
            OwnTables::CompactDigits(tables, options) => FormatterKind::CompactDigits(
                CompactDigitsFormatter::new(tables.formatter(), *options),
            ),
            OwnTables::Percent(tables, sign) => FormatterKind::Percent(tables.percents(*sign)),
            OwnTables::Currency(tables, code, fractions) => {
                FormatterKind::Currency(tables.amounts(*code, *fractions))
            }
            OwnTables::Scientific(tables, style, options) => {
                FormatterKind::Scientific(tables.formatter(*style, *options))
            }
        };
        NumberFormatter { kind }
    }
}
