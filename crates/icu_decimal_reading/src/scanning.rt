//! The digits of a text, gathered in one pass, and the number that they are.

ghost use Rattle.std.specs.Prelude.{◌≡◌, ◌+◌, ◌^◌, ◌≤◌, ◌<◌, length, filter_map, true, false, IfOk, IsErrOf, OnErr, OnOk};
ghost use Rattle.std.specs.Str.{chars};
ghost use Rattle.fixed_decimal.specs.declared.Sign.TheVariants.{None as NoSign};
ghost use Rattle.fixed_decimal.specs.InlineDigits.{inline_digits};
ghost use Rattle.icu_decimal_reading.specs.GatheredDigits.{with_characters};
ghost use Rattle.icu_decimal_reading.specs.PlainReading.{digits_of_text, fraction_in, is_within, number_with, whole_in, with_sign};
ghost use Rattle.icu_decimal_reading.specs.Readable.{all_differ, digit_of};

use crate::digits::{count_in, digit_in, does_fraction_follow, split_character};
use crate::error::ReadError;
use crate::gathered::Gathered;
use fixed_decimal::{Decimal, Sign};
use std::alloc::{AllocError, Global};

// A text of at most so many bytes is not counted beforehand: room that is made as the digits come is made once.
const SHORT: usize = 16;

// For how many digits of a text room is made beforehand.
fn room_for(table: &[char; 10], text: &str) -> usize
    requires { all_differ table.now ≡ true }
    ensures { result ≤ length (filter_map (digit_of table.now) (chars text.now)) }
{
    if text.len() <= SHORT {
        return 0;
    }
    count_in(table, text)
}

// Gathers the digits of a text.
#[tactic(auto, using(crate::proofs::StepLemmas::text_digit, crate::proofs::StepLemmas::text_other, crate::proofs::StepLemmas::text_end))]
fn gather_all(table: &[char; 10], text: &str, gathered: &mut Gathered) -> Result<(), AllocError>
    requires differ { all_differ table.now ≡ true }
    requires few { gathered.old.count + length text.now < 2 ^ 63 }
    ensures value { OnOk result
        (gathered.new ≡ with_characters gathered.old (digits_of_text table.now (chars text.now))) }
    ensures room { OnErr result
        (inline_digits < gathered.old.count + length (digits_of_text table.now (chars text.now))) }
{
    let mut left = text;
    while let Some((character, rest)) = split_character(left) {
        if let Some(digit) = digit_in(table, character) {
            gathered.push(digit)?;
        }
        left = rest;
    }
    Ok(())
}

// Gathers the digits up to the first one that a fraction follows, and answers what follows: nothing where no fraction
// does.
#[tactic(auto, using(crate::proofs::StepLemmas::whole_last, crate::proofs::StepLemmas::whole_digit, crate::proofs::StepLemmas::whole_other, crate::proofs::StepLemmas::whole_end, crate::proofs::StepLemmas::fraction_here, crate::proofs::StepLemmas::fraction_digit, crate::proofs::StepLemmas::fraction_other, crate::proofs::StepLemmas::fraction_end))]
fn gather_whole<'t>(
    table: &[char; 10],
    separator: &str,
    text: &'t str,
    gathered: &mut Gathered,
) -> Result<&'t str, AllocError>
    requires differ { all_differ table.now ≡ true }
    requires few { gathered.old.count + length text.now < 2 ^ 63 }
    ensures value { OnOk result
        (gathered.new ≡ with_characters gathered.old (whole_in table.now (chars separator.now) (chars text.now))) }
    ensures fraction { IfOk result
        (λ rest. digits_of_text table.now (chars rest.now)
        ≡ fraction_in table.now (chars separator.now) (chars text.now)) }
    ensures bound { IfOk result (λ rest. gathered.new.count + length rest.now ≤ gathered.old.count + length text.now) }
    ensures room { OnErr result
        (inline_digits < gathered.old.count + length (whole_in table.now (chars separator.now) (chars text.now))) }
{
    let mut left = text;
    while let Some((character, rest)) = split_character(left) {
        if let Some(digit) = digit_in(table, character) {
            gathered.push(digit)?;
            if does_fraction_follow(table, separator, rest) {
                return Ok(rest);
            }
        }
        left = rest;
    }
    Ok(left)
}

// The number whose digits are in a text, without a sign.
#[tactic(auto, using(crate::proofs::GatheredLemmas::number_within, crate::proofs::GatheredLemmas::number_past, crate::proofs::GatheredLemmas::none_gathered, crate::proofs::GatheredLemmas::many_whole))]
pub(crate) fn number_in(
    alloc: Global,
    table: &[char; 10],
    separator: &str,
    text: &str,
) -> Result<Decimal, ReadError>
    requires { all_differ table.now ≡ true }
    ensures value { IfOk result
        (λ v. v
        ≡ with_sign NoSign
        (number_with (whole_in table.now (chars separator.now) (chars text.now))
        (fraction_in table.now (chars separator.now) (chars text.now)))) }
    ensures within { OnOk result
        (is_within (whole_in table.now (chars separator.now) (chars text.now))
        (fraction_in table.now (chars separator.now) (chars text.now)) ≡ true) }
    ensures not_written { IsErrOf result ReadError.NotWritten
        → is_within (whole_in table.now (chars separator.now) (chars text.now))
        (fraction_in table.now (chars separator.now) (chars text.now)) ≡ false }
    ensures unreadable { ¬ (IsErrOf result ReadError.Unreadable) }
    ensures memory { IsErrOf result ReadError.Memory
        → inline_digits < length (filter_map (digit_of table.now) (chars text.now)) }
{
    let mut gathered = Gathered::with_room(alloc, room_for(table, text))?;
    let fraction = gather_whole(table, separator, text, &mut gathered)?;
    let whole = gathered.count();
    if whole == 0 {
        return Err(ReadError::NotWritten);
    }
    gather_all(table, fraction, &mut gathered)?;
    match gathered.into_number(whole) {
        Some(number) => Ok(Decimal::new(Sign::None, number)),
        None => Err(ReadError::NotWritten),
    }
}
