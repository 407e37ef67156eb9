//! A number with a name beside it: its unit, or the code of this.

ghost use Rattle.std.specs.Prelude.{IsErrOf};
ghost use Rattle.std.specs.Option.{option_copied};
ghost use Rattle.icu_decimal_reading.specs.DecimalOfText.{IsAnswered};
ghost use Rattle.icu_decimal_lenient.specs.Folding.{folded_symbols};
ghost use Rattle.icu_decimal_lenient.specs.LenientReading.{or_else};
ghost use Rattle.icu_dimension_lenient.specs.LenientUnits.{beside_within, between, minus_pair, past_back, past_front, plus_pair, read_beside, read_named, read_rest, signed_as};

use crate::ends::{strip_back, strip_front, strip_pair};
use crate::own::sign_unsigned;
use fixed_decimal::{Decimal, Sign};
use icu_decimal_lenient::LenientTables;
use icu_decimal_reading::ReadError;
use std::alloc::Global;

// A number, where there is a text, with spaces at its ends.
fn read_stripped(
    alloc: Global,
    kept: &LenientTables<'_>,
    rest: Option<&str>,
) -> Result<Decimal, ReadError>
    ensures unreadable { ¬ (IsErrOf result ReadError.Unreadable) }
    ensures reading { IsAnswered result (read_rest (folded_symbols kept.now) (option_copied rest.entry)) }
{
    match rest {
        Some(rest) => kept.read_folded_text(alloc, rest.trim()),
        None => Err(ReadError::NotWritten),
    }
}

// A number with a name before it.
#[tactic(auto, using(crate::proofs::UnitSteps::rest_same))]
fn read_after(
    alloc: Global,
    kept: &LenientTables<'_>,
    name: &str,
    text: &str,
) -> Result<Decimal, ReadError>
    ensures unreadable { ¬ (IsErrOf result ReadError.Unreadable) }
    ensures reading { IsAnswered result (read_rest (folded_symbols kept.now) (past_front name.now text.now)) }
{
    read_stripped(alloc, kept, strip_front(text, name))
}

// A number with a name after it.
#[tactic(auto, using(crate::proofs::UnitSteps::rest_same))]
fn read_before(
    alloc: Global,
    kept: &LenientTables<'_>,
    name: &str,
    text: &str,
) -> Result<Decimal, ReadError>
    ensures unreadable { ¬ (IsErrOf result ReadError.Unreadable) }
    ensures reading { IsAnswered result (read_rest (folded_symbols kept.now) (past_back name.now text.now)) }
{
    read_stripped(alloc, kept, strip_back(text, name))
}

// A number with a name before it, or else after it.
#[tactic(auto, using(icu_decimal_lenient::proofs::LenientStepLemmas::answered_first, icu_decimal_lenient::proofs::LenientStepLemmas::answered_second))]
fn read_with_name(
    alloc: Global,
    kept: &LenientTables<'_>,
    name: &str,
    text: &str,
) -> Result<Decimal, ReadError>
    ensures unreadable { ¬ (IsErrOf result ReadError.Unreadable) }
    ensures reading { IsAnswered result (read_beside (folded_symbols kept.now) name.now text.now) }
{
    match read_after(alloc, kept, name, text) {
        Ok(number) => Ok(number),
        Err(ReadError::NotWritten) => read_before(alloc, kept, name, text),
        Err(error) => Err(error),
    }
}

// This without a sign, with this one.
#[tactic(auto, using(crate::proofs::UnitSteps::signed_read, crate::proofs::UnitSteps::signed_missing))]
fn read_signed(
    alloc: Global,
    kept: &LenientTables<'_>,
    name: &str,
    sign: Sign,
    text: &str,
) -> Result<Decimal, ReadError>
    ensures unreadable { ¬ (IsErrOf result ReadError.Unreadable) }
    ensures reading { IsAnswered result (signed_as sign (read_beside (folded_symbols kept.now) name.now text.now)) }
{
    match read_with_name(alloc, kept, name, text) {
        Ok(number) => sign_unsigned(number, sign),
        Err(error) => Err(error),
    }
}

// This where there is a text, with spaces at its ends.
fn read_inside(
    alloc: Global,
    kept: &LenientTables<'_>,
    name: &str,
    sign: Sign,
    inner: Option<&str>,
) -> Result<Decimal, ReadError>
    ensures unreadable { ¬ (IsErrOf result ReadError.Unreadable) }
    ensures reading { IsAnswered result
        (beside_within (folded_symbols kept.now) name.now sign (option_copied inner.entry)) }
{
    match inner {
        Some(inner) => read_signed(alloc, kept, name, sign, inner.trim()),
        None => Err(ReadError::NotWritten),
    }
}

// Between the affixes that a minus sign has in the symbols.
#[tactic(auto, using(crate::proofs::UnitSteps::within_same))]
fn read_minus(
    alloc: Global,
    kept: &LenientTables<'_>,
    name: &str,
    text: &str,
) -> Result<Decimal, ReadError>
    ensures unreadable { ¬ (IsErrOf result ReadError.Unreadable) }
    ensures reading { IsAnswered result
        (beside_within (folded_symbols kept.now) name.now Sign.Negative
        (between (minus_pair (folded_symbols kept.now)) text.now)) }
{
    let symbols = kept.folded();
    let inner = strip_pair(
        text,
        symbols.minus_sign_prefix(),
        symbols.minus_sign_suffix(),
    );
    read_inside(alloc, kept, name, Sign::Negative, inner)
}

// Between those of a plus sign.
#[tactic(auto, using(crate::proofs::UnitSteps::within_same))]
fn read_plus(
    alloc: Global,
    kept: &LenientTables<'_>,
    name: &str,
    text: &str,
) -> Result<Decimal, ReadError>
    ensures unreadable { ¬ (IsErrOf result ReadError.Unreadable) }
    ensures reading { IsAnswered result
        (beside_within (folded_symbols kept.now) name.now Sign.Positive
        (between (plus_pair (folded_symbols kept.now)) text.now)) }
{
    let symbols = kept.folded();
    let inner = strip_pair(text, symbols.plus_sign_prefix(), symbols.plus_sign_suffix());
    read_inside(alloc, kept, name, Sign::Positive, inner)
}

// Between those of either sign.
#[tactic(auto, using(icu_decimal_lenient::proofs::LenientStepLemmas::answered_first, icu_decimal_lenient::proofs::LenientStepLemmas::answered_second))]
fn read_outside(
    alloc: Global,
    kept: &LenientTables<'_>,
    name: &str,
    text: &str,
) -> Result<Decimal, ReadError>
    ensures unreadable { ¬ (IsErrOf result ReadError.Unreadable) }
    ensures reading { IsAnswered result
        (or_else (beside_within (folded_symbols kept.now) name.now Sign.Negative
        (between (minus_pair (folded_symbols kept.now)) text.now))
        (beside_within (folded_symbols kept.now) name.now Sign.Positive
        (between (plus_pair (folded_symbols kept.now)) text.now))) }
{
    match read_minus(alloc, kept, name, text) {
        Ok(number) => Ok(number),
        Err(ReadError::NotWritten) => read_plus(alloc, kept, name, text),
        Err(error) => Err(error),
    }
}

// A number with a name beside it, and its sign next to it or around both.
#[tactic(auto, using(icu_decimal_lenient::proofs::LenientStepLemmas::answered_first, icu_decimal_lenient::proofs::LenientStepLemmas::answered_second))]
pub(crate) fn read_by_name(
    alloc: Global,
    kept: &LenientTables<'_>,
    name: &str,
    text: &str,
) -> Result<Decimal, ReadError>
    ensures unreadable { ¬ (IsErrOf result ReadError.Unreadable) }
    ensures reading { IsAnswered result (read_named (folded_symbols kept.now) name.now text.now) }
{
    match read_with_name(alloc, kept, name, text) {
        Ok(number) => Ok(number),
        Err(ReadError::NotWritten) => read_outside(alloc, kept, name, text),
        Err(error) => Err(error),
    }
}
