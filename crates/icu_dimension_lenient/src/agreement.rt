//! Readings of one text, of which no two may be different decimals.

ghost use Rattle.std.specs.Prelude.{◌≡◌, [], List, IsErrOf};
ghost use Rattle.icu_decimal_reading.specs.DecimalOfText.{IsAnswered, PlainReading};
ghost use Rattle.icu_dimension_lenient.specs.Agreement.{IsAdded, agreed_after};

use fixed_decimal::Decimal;
use icu_decimal_reading::ReadError;

// A decimal that was found, and one reading more of the same text.
#[tactic(auto, using(crate::proofs::AgreementSteps::same_added, crate::proofs::AgreementSteps::other_added))]
fn add_to(number: Decimal, other: Result<Decimal, ReadError>) -> Result<Option<Decimal>, ReadError>
    ensures unreadable { ¬ (IsErrOf result ReadError.Unreadable) }
    ensures memory { IsErrOf result ReadError.Memory → IsErrOf other ReadError.Memory }
    ensures reading { (one : PlainReading) (rest : List PlainReading) → IsAnswered other one
        → IsAdded result (Some number) one rest }
{
    match other {
        Ok(found) => if number == found {
            Ok(Some(number))
        } else {
            Err(ReadError::NotWritten)
        },
        Err(ReadError::Memory) => Err(ReadError::Memory),
        Err(ReadError::Unreadable | ReadError::NotWritten) => Ok(Some(number)),
    }
}

// The first decimal, if there is one.
#[tactic(auto, using(crate::proofs::AgreementSteps::first_added, crate::proofs::AgreementSteps::none_added, crate::proofs::AgreementSteps::unread_added))]
fn add_first(other: Result<Decimal, ReadError>) -> Result<Option<Decimal>, ReadError>
    ensures not_written { ¬ (IsErrOf result ReadError.NotWritten) }
    ensures memory { IsErrOf result ReadError.Memory → IsErrOf other ReadError.Memory }
    ensures unreadable { IsErrOf result ReadError.Unreadable → IsErrOf other ReadError.Unreadable }
    ensures reading { (one : PlainReading) (rest : List PlainReading) → IsAnswered other one
        → IsAdded result None one rest }
{
    match other {
        Ok(number) => Ok(Some(number)),
        Err(ReadError::NotWritten) => Ok(None),
        Err(error) => Err(error),
    }
}

/// A decimal that was found or none, and one reading more of the same text: 1.234 and 1234 are refused, 1234 and none, or
/// 1234 again, is 1234.
///
/// `NotWritten`: they are two decimals. `Unreadable`: none was found, and the reading is that. `Memory`: the reading was
/// out of memory. It does not allocate.
pub fn add_reading(
    found: Option<Decimal>,
    other: Result<Decimal, ReadError>,
) -> Result<Option<Decimal>, ReadError>
    ensures unreadable { IsErrOf result ReadError.Unreadable → IsErrOf other ReadError.Unreadable }
    ensures memory { IsErrOf result ReadError.Memory → IsErrOf other ReadError.Memory }
    ensures reading { (one : PlainReading) (rest : List PlainReading) → IsAnswered other one
        → IsAdded result found one rest }
{
    match found {
        Some(number) => add_to(number, other),
        None => add_first(other),
    }
}

/// The decimal that was found in all readings, or `NotWritten`. It does not allocate.
pub fn found_reading(found: Option<Decimal>) -> Result<Decimal, ReadError>
    ensures unreadable { ¬ (IsErrOf result ReadError.Unreadable) }
    ensures memory { ¬ (IsErrOf result ReadError.Memory) }
    ensures reading { IsAnswered result (agreed_after found []) }
{
    match found {
        Some(number) => Ok(number),
        None => Err(ReadError::NotWritten),
    }
}
