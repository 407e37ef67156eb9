//! What a program needs: a book, the formatters of a tag, numbers, and what is written and read:
//! `use locale_numbers::prelude::..`.

pub use crate::world::world_text;
pub use fixed_decimal::{Decimal, Sign};
pub use icu_decimal::error::{ReadError, WriteFault};
pub use icu_decimal::options::{
    CompactDecimalFormatterOptions, DecimalFormatterOptions, GroupingStrategy,
};
pub use icu_decimal::{
    AbstractFormatter, CompactDecimalFormatter, DecimalFormatter, LenientTables, read_lenient,
    read_plain,
};
pub use icu_dimension::parts::{CURRENCY, PERCENT_SIGN};
pub use icu_dimension::{
    CurrencyCode, CurrencyFormatter, CurrencyFormatterOptions, CurrencyStyle, CurrencyUsage,
    CurrencyWidth, PercentFormatter, PercentFormatterOptions, PercentSign,
};
pub use icu_locale_core::Locale;
pub use icu_plurals::{
    PluralCategory, PluralOperands, PluralRuleType, PluralRules, PluralRulesWithRanges,
};
pub use locale_numbers_book::{Book, BookError, FormatterError, SAMPLE_BOOK, SAMPLE_UNITS_BOOK};
pub use locale_numbers_formats::CompactWidth;
pub use locale_numbers_world::{WORLD_LOCALES, world_tags};
pub use writeable::{Affixed, Part, PartsSink, Sink, TextSink, Writeable};
