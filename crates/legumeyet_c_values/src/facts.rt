//! What a formatter tells of itself, into bytes of the caller's.

ghost use Rattle.std.specs.Prelude.{◌≡◌, None, Some, decimal};
ghost use Rattle.legumeyet_c_values.specs.Facts.{IsNoFact, count_of, fact_text, increment_of, told_of};
ghost use Rattle.legumeyet_c_values.specs.Putting.{IsPut};

use crate::call_error::CallError;
use crate::fact_texts::{CategoryWords, TenDigits};
use crate::fact_words::Fact;
use crate::putting::put;
use icu_decimal_symbols::DecimalSymbols;
use icu_dimension_fractions::{FractionIncrement, FractionInfo};
use icu_plurals::PluralRules;
use itoa::Buffer;

/// What facts are told of: the tables of a formatter, the digits of its currency, and its plural rules.
#[derive(Clone, Copy, Drop)]
pub struct Facts<'a> {
    /// The symbols.
    pub symbols: &'a DecimalSymbols,
    /// The ten digits, from zero up.
    pub digits: &'a [char; 10],
    /// The digits of the currency, where amounts are written.
    pub fractions: Option<FractionInfo>,
    /// The rules, where the words of plural categories are written.
    pub rules: Option<&'a PluralRules>,
}

// How many units of the last digit an increment is.
fn increment_number(increment: FractionIncrement) -> u8
    ensures { result ≡ increment_of increment }
{
    match increment {
        FractionIncrement::MultiplesOf1 => 1,
        FractionIncrement::MultiplesOf2 => 2,
        FractionIncrement::MultiplesOf5 => 5,
        FractionIncrement::MultiplesOf10 => 10,
        FractionIncrement::MultiplesOf20 => 20,
        FractionIncrement::MultiplesOf25 => 25,
        FractionIncrement::MultiplesOf50 => 50,
    }
}

// Writes a count in the digits of ASCII.
fn put_count(count: u8, out: &mut [u8], length: &mut usize) -> Result<(), CallError>
    ensures { IsPut (λ text. text ≡ decimal count) (λ error. ⊥) out.old out.new length.old length.new result }
{
    let mut buffer = Buffer::new();
    put(&buffer.format(count), out, length)
}

// Writes a count of the digits of the currency. `UnknownOption`: there is none.
fn put_fraction(
    fractions: Option<FractionInfo>,
    fact: Fact,
    out: &mut [u8],
    length: &mut usize,
) -> Result<(), CallError>
    ensures { IsPut (λ text. count_of fact fractions ≡ Some text)
        (λ error. (error ≡ CallError.UnknownOption) × (count_of fact fractions ≡ None)) out.old out.new length.old
        length.new result }
{
    let Some(fractions) = fractions else {
        return Err(CallError::UnknownOption);
    };
    match fact {
        Fact::FractionDigits => put_count(fractions.standard.digits, out, length),
        Fact::CashDigits => put_count(fractions.cash.digits, out, length),
        Fact::CashIncrement => put_count(increment_number(fractions.cash.increment), out, length),
        _ => Err(CallError::UnknownOption),
    }
}

/// Writes a fact to the front of the bytes, and tells its length: of the decimal separator of German `,`.
///
/// `UnknownOption`: a formatter of this kind has no such fact. `TooSmall`: the text is longer than the bytes. It does not
/// allocate.
pub fn put_fact(
    facts: &Facts<'_>,
    fact: Fact,
    out: &mut [u8],
    length: &mut usize,
) -> Result<(), CallError>
    ensures { IsPut (λ text. fact_text (told_of facts.now) fact ≡ Some text) (IsNoFact (told_of facts.now) fact) out.old
        out.new length.old length.new result }
{
    let symbols = facts.symbols;
    match fact {
        Fact::DecimalSeparator => put(&symbols.decimal_separator(), out, length),
        Fact::GroupingSeparator => put(&symbols.grouping_separator(), out, length),
        Fact::MinusBefore => put(&symbols.minus_sign_prefix(), out, length),
        Fact::MinusAfter => put(&symbols.minus_sign_suffix(), out, length),
        Fact::PlusBefore => put(&symbols.plus_sign_prefix(), out, length),
        Fact::PlusAfter => put(&symbols.plus_sign_suffix(), out, length),
        Fact::Digits => put(
            &TenDigits {
                digits: facts.digits,
            },
            out,
            length,
        ),
        Fact::FractionDigits | Fact::CashDigits | Fact::CashIncrement => {
            put_fraction(facts.fractions, fact, out, length)
        }
        Fact::Categories => match facts.rules {
            Some(rules) => put(&CategoryWords { rules }, out, length),
            None => Err(CallError::UnknownOption),
        },
    }
}
