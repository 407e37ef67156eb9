//! A number between the affixes of its sign.

ghost use Rattle.std.specs.Prelude.{IsErrOf};
ghost use Rattle.icu_decimal_reading.specs.DecimalOfText.{IsAnswered};
ghost use Rattle.icu_decimal_lenient.specs.Folding.{folded_symbols};
ghost use Rattle.icu_decimal_lenient.specs.LenientReading.{or_else, read_either};
ghost use Rattle.icu_dimension_affixes.specs.HeldReaders.{pair_of};
ghost use Rattle.icu_dimension_lenient.specs.HeldPairs.{pairs_of};
ghost use Rattle.icu_dimension_lenient.specs.LenientUnits.{read_between, read_own, signed_as, with_own_sign};

use crate::ends::strip_pair;
use crate::pairs::FoldedPairs;
use fixed_decimal::{Decimal, Sign};
use icu_decimal_lenient::LenientTables;
use icu_decimal_reading::ReadError;
use icu_dimension_affixes::steps::SignAffixes;
use std::alloc::Global;

// A number that has no sign, with this one.
pub(crate) fn sign_unsigned(number: Decimal, sign: Sign) -> Result<Decimal, ReadError>
    ensures unreadable { ¬ (IsErrOf result ReadError.Unreadable) }
    ensures memory { ¬ (IsErrOf result ReadError.Memory) }
    ensures reading { IsAnswered result (with_own_sign sign number.sign number.absolute) }
{
    match number.sign {
        Sign::None => Ok(number.with_sign(sign)),
        Sign::Negative | Sign::Positive => Err(ReadError::NotWritten),
    }
}

// A folded text of a number that has no sign, with this one.
#[tactic(auto, using(crate::proofs::UnitSteps::signed_read, crate::proofs::UnitSteps::signed_missing))]
fn read_signed(
    alloc: Global,
    kept: &LenientTables<'_>,
    sign: Sign,
    text: &str,
) -> Result<Decimal, ReadError>
    ensures unreadable { ¬ (IsErrOf result ReadError.Unreadable) }
    ensures reading { IsAnswered result (signed_as sign (read_either (folded_symbols kept.now) text.now)) }
{
    match kept.read_folded_text(alloc, text) {
        Ok(number) => sign_unsigned(number, sign),
        Err(error) => Err(error),
    }
}

// The number between the affixes of a sign, with the sign.
#[tactic(auto, using(crate::proofs::UnitSteps::between_read, crate::proofs::UnitSteps::between_missing))]
fn read_one(
    alloc: Global,
    kept: &LenientTables<'_>,
    affixes: &SignAffixes,
    sign: Sign,
    text: &str,
) -> Result<Decimal, ReadError>
    ensures unreadable { ¬ (IsErrOf result ReadError.Unreadable) }
    ensures reading { IsAnswered result
        (read_between (folded_symbols kept.now) sign (pair_of affixes.now) text.now) }
{
    match strip_pair(text, affixes.before.as_str(), affixes.after.as_str()) {
        Some(inner) => read_signed(alloc, kept, sign, inner),
        None => Err(ReadError::NotWritten),
    }
}

// The number between the affixes of a minus sign, else of a plus sign.
#[tactic(auto, using(icu_decimal_lenient::proofs::LenientStepLemmas::answered_first, icu_decimal_lenient::proofs::LenientStepLemmas::answered_second))]
fn read_either_sign(
    alloc: Global,
    kept: &LenientTables<'_>,
    minus: &SignAffixes,
    plus: &SignAffixes,
    text: &str,
) -> Result<Decimal, ReadError>
    ensures unreadable { ¬ (IsErrOf result ReadError.Unreadable) }
    ensures reading { IsAnswered result
        (or_else (read_between (folded_symbols kept.now) Sign.Negative (pair_of minus.now) text.now)
        (read_between (folded_symbols kept.now) Sign.Positive (pair_of plus.now) text.now)) }
{
    match read_one(alloc, kept, minus, Sign::Negative, text) {
        Ok(number) => Ok(number),
        Err(ReadError::NotWritten) => read_one(alloc, kept, plus, Sign::Positive, text),
        Err(error) => Err(error),
    }
}

// The number between the affixes of one of the signs, with that sign.
#[tactic(auto, using(icu_decimal_lenient::proofs::LenientStepLemmas::answered_first, icu_decimal_lenient::proofs::LenientStepLemmas::answered_second))]
pub(crate) fn read_affixes(
    alloc: Global,
    kept: &LenientTables<'_>,
    pairs: &FoldedPairs,
    text: &str,
) -> Result<Decimal, ReadError>
    ensures unreadable { ¬ (IsErrOf result ReadError.Unreadable) }
    ensures reading { IsAnswered result (read_own (folded_symbols kept.now) (pairs_of pairs.now) text.now) }
{
    match read_one(alloc, kept, &pairs.none, Sign::None, text) {
        Ok(number) => Ok(number),
        Err(ReadError::NotWritten) => {
            read_either_sign(alloc, kept, &pairs.minus, &pairs.plus, text)
        }
        Err(error) => Err(error),
    }
}
