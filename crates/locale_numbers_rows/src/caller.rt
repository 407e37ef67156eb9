//! The caller of `CALLING.md` of `locale_numbers`.

ghost use Rattle.std.specs.Prelude.{◌≡◌, ◌⊎◌, Err, IfErr, IfOk, Ok, string_bytes};
ghost use Rattle.icu_decimal.specs.PlainText.{Tables, decimal_text};
ghost use Rattle.locale_numbers.specs.TagFormatters.{plain_for};
ghost use Rattle.locale_numbers.specs.declared.FormatterError.{FormatterError};

use locale_numbers::prelude::{Book, Decimal, FormatterError};
use std::alloc::Global;

/// The text of a number for the readers of a tag: `-987,654.321` for `en`.
pub fn text_for(
    alloc: Global,
    book: &Book,
    tag: &str,
    number: &Decimal,
) -> Result<String, FormatterError>
    ensures text { IfOk result (λ text. (tables : Tables)
        × (plain_for book.now tag.now ≡ Ok tables) × (string_bytes text ≡ decimal_text tables number.now)) }
    ensures fault { IfErr result
        (λ fault. (fault ≡ FormatterError.Memory) ⊎ (plain_for book.now tag.now ≡ Err fault)) }
{
    let formatter = book.formatter(alloc, tag)?;
    Ok(formatter.format_to_string(alloc, number)?)
}
