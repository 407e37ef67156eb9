//! A folded text, read with folded symbols: as it is, trimmed, or filled.

ghost use Rattle.std.specs.Prelude.{◌≡◌, true, IsErrOf};
ghost use Rattle.icu_decimal_symbols.specs.declared.options.GroupingStrategy.TheVariants.{Never};
ghost use Rattle.icu_decimal_reading.specs.DecimalOfText.{IsAnswered, not_written};
ghost use Rattle.icu_decimal_reading.specs.Readable.{is_readable_by};
ghost use Rattle.icu_decimal_lenient.specs.LenientReading.{filled_text, read_either, read_folded, read_trimmed, with_folded};

use crate::filling::{digits, fill};
use fixed_decimal::Decimal;
use icu_decimal_plain::DecimalTables;
use icu_decimal_reading::{ReadError, read_readable};
use icu_decimal_symbols::DecimalSymbols;
use icu_decimal_symbols::options::GroupingStrategy;
use std::alloc::Global;

// A folded text, read without groups, else with all of them.
#[tactic(auto, using(crate::proofs::LenientStepLemmas::answered_first, crate::proofs::LenientStepLemmas::answered_second))]
pub(crate) fn read_grouped(
    alloc: Global,
    folded: &DecimalSymbols,
    text: &str,
) -> Result<Decimal, ReadError>
    requires { is_readable_by (with_folded Never folded.now) ≡ true }
    ensures unreadable { ¬ (IsErrOf result ReadError.Unreadable) }
    ensures reading { IsAnswered result (read_either folded.now text.now) }
{
    let without = DecimalTables::new(folded, digits(), GroupingStrategy::Never);
    match read_readable(alloc, &without, text) {
        Ok(number) => Ok(number),
        Err(ReadError::NotWritten) => {
            let with = DecimalTables::new(folded, digits(), GroupingStrategy::Always);
            read_readable(alloc, &with, text)
        }
        Err(error) => Err(error),
    }
}

// A text that may be the one that was tried already, and has no number.
fn read_untried(
    alloc: Global,
    folded: &DecimalSymbols,
    text: &str,
    tried: &str,
) -> Result<Decimal, ReadError>
    requires readable { is_readable_by (with_folded Never folded.now) ≡ true }
    requires none { read_either folded.now tried.now ≡ not_written }
    ensures unreadable { ¬ (IsErrOf result ReadError.Unreadable) }
    ensures reading { IsAnswered result (read_either folded.now text.now) }
{
    if text == tried {
        return Err(ReadError::NotWritten);
    }
    read_grouped(alloc, folded, text)
}

// A trimmed text, filled.
fn read_filled(alloc: Global, folded: &DecimalSymbols, text: &str) -> Result<Decimal, ReadError>
    requires readable { is_readable_by (with_folded Never folded.now) ≡ true }
    requires none { read_either folded.now text.now ≡ not_written }
    ensures unreadable { ¬ (IsErrOf result ReadError.Unreadable) }
    ensures reading { IsAnswered result
        (read_either folded.now (filled_text folded.now.strings.decimal_separator text.now)) }
{
    let filled = fill(alloc, folded.decimal_separator(), text)?;
    read_untried(alloc, folded, filled.as_str(), text)
}

// A text that has no number as it is, trimmed, else filled.
#[tactic(auto, using(crate::proofs::LenientStepLemmas::answered_first, crate::proofs::LenientStepLemmas::answered_second))]
fn read_trim(alloc: Global, folded: &DecimalSymbols, text: &str) -> Result<Decimal, ReadError>
    requires readable { is_readable_by (with_folded Never folded.now) ≡ true }
    requires none { read_either folded.now text.now ≡ not_written }
    ensures unreadable { ¬ (IsErrOf result ReadError.Unreadable) }
    ensures reading { IsAnswered result (read_trimmed folded.now text.now) }
{
    let trimmed = text.trim();
    match read_untried(alloc, folded, trimmed, text) {
        Ok(number) => Ok(number),
        Err(ReadError::NotWritten) => read_filled(alloc, folded, trimmed),
        Err(error) => Err(error),
    }
}

// A folded text as it is, else trimmed, else filled.
#[tactic(auto, using(crate::proofs::LenientStepLemmas::answered_first, crate::proofs::LenientStepLemmas::answered_second))]
pub(crate) fn read_whole(
    alloc: Global,
    folded: &DecimalSymbols,
    text: &str,
) -> Result<Decimal, ReadError>
    requires { is_readable_by (with_folded Never folded.now) ≡ true }
    ensures unreadable { ¬ (IsErrOf result ReadError.Unreadable) }
    ensures reading { IsAnswered result (read_folded folded.now text.now) }
{
    match read_grouped(alloc, folded, text) {
        Ok(number) => Ok(number),
        Err(ReadError::NotWritten) => read_trim(alloc, folded, text),
        Err(error) => Err(error),
    }
}
