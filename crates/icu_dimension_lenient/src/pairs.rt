//! The folded affixes of the signs.

ghost use Rattle.std.specs.Prelude.{◌≡◌, ◌&&◌, IfOk, string_bytes};
ghost use Rattle.icu_dimension_affixes.specs.HeldReaders.{pair_of};
ghost use Rattle.icu_dimension_affixes.specs.UnitReading.{are_clear_pairs, do_pairs_differ};
ghost use Rattle.icu_dimension_lenient.specs.HeldPairs.{pairs_of};
ghost use Rattle.icu_dimension_lenient.specs.LenientUnits.{folded_pair, folded_pairs};
ghost use Rattle.icu_decimal_lenient.specs.Folding.{folded_text, plain_digits};

use fixed_decimal::Sign;
use icu_decimal_lenient::LenientTables;
use icu_dimension_affixes::UnitReader;
use icu_dimension_affixes::steps::{SignAffixes, are_apart, are_clear};
use std::alloc::{AllocError, Global};

// The digits of ASCII.
const PLAIN_DIGITS: [char; 10] = ['0', '1', '2', '3', '4', '5', '6', '7', '8', '9'];

// The affixes of each sign, folded.
#[derive(Debug, Drop)]
pub(crate) struct FoldedPairs {
    pub(crate) none: SignAffixes,
    pub(crate) minus: SignAffixes,
    pub(crate) plus: SignAffixes,
}

// The affixes of a sign, folded.
fn fold_affixes(
    alloc: Global,
    kept: &LenientTables<'_>,
    affixes: &SignAffixes,
) -> Result<SignAffixes, AllocError>
    ensures { IfOk result (λ a. pair_of a ≡ folded_pair kept.now.digits (pair_of affixes.now)) }
{
    let before = kept.fold(alloc, affixes.before.as_str())?;
    let after = kept.fold(alloc, affixes.after.as_str())?;
    Ok(SignAffixes { before, after })
}

// Those of each sign.
pub(crate) fn fold_pairs(
    alloc: Global,
    kept: &LenientTables<'_>,
    reader: &UnitReader<'_>,
) -> Result<FoldedPairs, AllocError>
    ensures { IfOk result (λ pairs. pairs_of pairs ≡ folded_pairs kept.now.digits reader.now.pairs) }
{
    let none = fold_affixes(alloc, kept, reader.affixes(Sign::None))?;
    let minus = fold_affixes(alloc, kept, reader.affixes(Sign::Negative))?;
    let plus = fold_affixes(alloc, kept, reader.affixes(Sign::Positive))?;
    Ok(FoldedPairs { none, minus, plus })
}

// Whether no digit is in them, and they differ.
pub(crate) fn do_tell(pairs: &FoldedPairs) -> bool
    ensures { result ≡ (are_clear_pairs plain_digits (pairs_of pairs.now) && do_pairs_differ (pairs_of pairs.now)) }
{
    (are_clear(&PLAIN_DIGITS, &pairs.none)
        && (are_clear(&PLAIN_DIGITS, &pairs.minus) && are_clear(&PLAIN_DIGITS, &pairs.plus)))
        && (are_apart(&pairs.none, &pairs.minus)
            && (are_apart(&pairs.none, &pairs.plus) && are_apart(&pairs.minus, &pairs.plus)))
}

// The affixes of each sign, the unit and its code, folded.
#[derive(Debug, Drop)]
pub(crate) struct FoldedTexts {
    pub(crate) pairs: FoldedPairs,
    pub(crate) unit: String,
    pub(crate) code: String,
}

// These texts, folded.
pub(crate) fn fold_texts(
    alloc: Global,
    kept: &LenientTables<'_>,
    reader: &UnitReader<'_>,
    unit: &str,
    code: &str,
) -> Result<FoldedTexts, AllocError>
    ensures pairs { IfOk result (λ t. pairs_of t.pairs ≡ folded_pairs kept.now.digits reader.now.pairs) }
    ensures unit { IfOk result (λ t. string_bytes t.unit ≡ folded_text kept.now.digits unit.now) }
    ensures code { IfOk result (λ t. string_bytes t.code ≡ folded_text kept.now.digits code.now) }
{
    let unit = kept.fold(alloc, unit)?;
    let code = kept.fold(alloc, code)?;
    let pairs = fold_pairs(alloc, kept, reader)?;
    Ok(FoldedTexts { pairs, unit, code })
}
