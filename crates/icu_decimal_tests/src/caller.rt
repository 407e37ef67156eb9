//! The caller of `CALLING.md` of `icu_decimal`.

ghost use Rattle.std.specs.Prelude.{◌≡◌, IfOk, string_bytes};
ghost use Rattle.icu_decimal.specs.CompactText.{compact_decimal_text};
ghost use Rattle.icu_decimal.specs.HeldCompact.{compact_tables_of};
ghost use Rattle.icu_decimal.specs.HeldTables.{tables_of};
ghost use Rattle.icu_decimal.specs.PlainText.{decimal_text};
ghost use Rattle.icu_decimal.specs.ShownChoice.{CanShow};

use icu_decimal::input::Decimal;
use icu_decimal::{CompactDecimalFormatter, DecimalFormatter};
use std::alloc::{AllocError, Global};

/// The short text of a number, or its plain text where it has no short one.
pub fn label(
    alloc: Global,
    plain: &DecimalFormatter<'_>,
    short: &CompactDecimalFormatter<'_>,
    number: &Decimal,
) -> Result<String, AllocError>
    ensures short { CanShow (compact_tables_of short.now).patterns.entries number.now.absolute.count
        → IfOk result (λ text. string_bytes text ≡ compact_decimal_text (compact_tables_of short.now) number.now) }
    ensures plain { ¬ (CanShow (compact_tables_of short.now).patterns.entries number.now.absolute.count)
        → IfOk result (λ text. string_bytes text ≡ decimal_text (tables_of plain.now) number.now) }
{
    if short.can_format(number) {
        short.format_to_string(alloc, number)
    } else {
        plain.format_to_string(alloc, number)
    }
}
