//! The affixes of a sign, with the unit in its place.

ghost use Rattle.std.specs.Prelude.{◌≡◌, ◌++◌, IfOk, OnOk, string_bytes};
ghost use Rattle.icu_decimal_plain.specs.Affixes.{affixes_of};
ghost use Rattle.icu_decimal_plain.specs.PlainText.{prefix_text, suffix_text};
ghost use Rattle.icu_dimension_affixes.specs.HeldReaders.{pair_of};
ghost use Rattle.icu_dimension_affixes.specs.HeldUnits.{affix_of, name_of, settings_of};
ghost use Rattle.icu_dimension_affixes.specs.UnitPatterns.{affix_text, pair_with};
ghost use Rattle.icu_dimension_affixes.specs.UnitText.{sign_pair};

use crate::affixes::{Affix, UnitAffixes};
use crate::tables::UnitTables;
use crate::unit::Unit;
use fixed_decimal::Sign;
use icu_decimal_symbols::DecimalSymbols;
use std::alloc::{AllocError, Global};

/// What is written before a number and after it, with its unit: `-€` and the empty text.
#[derive(Debug, Drop)]
pub struct SignAffixes {
    /// What is written before it: `-€`.
    pub before: String,
    /// What is written after it: the empty text.
    pub after: String,
}

// The prefix that a sign has in these symbols.
fn prefix_in(sign: Sign, symbols: &DecimalSymbols) -> &str
    ensures { result.now ≡ prefix_text (affixes_of symbols.now.strings sign) }
{
    match sign {
        Sign::None => "",
        Sign::Negative => symbols.minus_sign_prefix(),
        Sign::Positive => symbols.plus_sign_prefix(),
    }
}

// The suffix that a sign has in these symbols.
fn suffix_in(sign: Sign, symbols: &DecimalSymbols) -> &str
    ensures { result.now ≡ suffix_text (affixes_of symbols.now.strings sign) }
{
    match sign {
        Sign::None => "",
        Sign::Negative => symbols.minus_sign_suffix(),
        Sign::Positive => symbols.plus_sign_suffix(),
    }
}

// The text of an affix.
#[tactic(auto, using(std::proofs::lemmas::List::append_assoc))]
fn affix_text_of(alloc: Global, affix: &Affix<'_>, unit: &Unit<'_>) -> Result<String, AllocError>
    ensures { IfOk result (λ text. string_bytes text ≡ affix_text (affix_of affix.now) unit.now.text.now) }
{
    let mut text = String::new(alloc);
    match *affix {
        Affix::Literal(only) => text.push_str(only)?,
        Affix::Around(before, after) => {
            text.push_str(before)?;
            text.push_str(unit.text)?;
            text.push_str(after)?;
        }
    }
    Ok(text)
}

// A text before another one.
fn joined(alloc: Global, first: &str, second: &str) -> Result<String, AllocError>
    ensures { IfOk result (λ text. string_bytes text ≡ first.now ++ second.now) }
{
    let mut text = String::new(alloc);
    text.push_str(first)?;
    text.push_str(second)?;
    Ok(text)
}

// Affixes with the unit in its place, alone.
fn own_affixes(alloc: Global, own: &UnitAffixes, unit: &Unit<'_>) -> Result<SignAffixes, AllocError>
    ensures { IfOk result (λ a. pair_of a ≡ pair_with own.now unit.now.text.now) }
{
    let before = affix_text_of(alloc, &own.before(), unit)?;
    let after = affix_text_of(alloc, &own.after(), unit)?;
    Ok(SignAffixes { before, after })
}

// The affixes of a sign.
pub(crate) fn sign_affixes(
    alloc: Global,
    tables: &UnitTables<'_>,
    sign: Sign,
) -> Result<SignAffixes, AllocError>
    ensures { IfOk result (λ a. pair_of a ≡ sign_pair (settings_of tables.now) sign) }
{
    if let Some(own) = tables.pattern.own(sign) {
        return own_affixes(alloc, own, &tables.unit);
    }
    let symbols = tables.decimals.symbols();
    let inner = own_affixes(alloc, tables.pattern.unsigned(), &tables.unit)?;
    let before = joined(alloc, prefix_in(sign, symbols), inner.before.as_str())?;
    let after = joined(alloc, inner.after.as_str(), suffix_in(sign, symbols))?;
    Ok(SignAffixes { before, after })
}
