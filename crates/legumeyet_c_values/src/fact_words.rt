//! The facts of a formatter, by the numbers that the header has for them.

ghost use Rattle.std.specs.Prelude.{◌≡◌};
ghost use Rattle.legumeyet_c_values.specs.Facts.{fact_numbered};

/// A fact of a formatter, as text: `DecimalSeparator` of German is `,`.
#[derive(Clone, Copy, Drop)]
pub enum Fact {
    /// What is between the integer digits and the fraction digits.
    DecimalSeparator,
    /// What is between groups of integer digits.
    GroupingSeparator,
    /// What a minus sign is before the number.
    MinusBefore,
    /// What it is after the number.
    MinusAfter,
    /// What a plus sign is before the number.
    PlusBefore,
    /// What it is after the number.
    PlusAfter,
    /// The ten digits, zero first.
    Digits,
    /// How many digits an amount has after the separator.
    FractionDigits,
    /// How many it has in cash.
    CashDigits,
    /// To which multiples of the last digit it is rounded in cash.
    CashIncrement,
    /// The words of the plural categories, with blanks between.
    Categories,
}

/// The fact that has a number: `DecimalSeparator` of 1. `None`: there is none. It does not allocate.
pub fn fact_by(number: u32) -> Option<Fact>
    ensures { result ≡ fact_numbered number }
{
    match number {
        1 => Some(Fact::DecimalSeparator),
        2 => Some(Fact::GroupingSeparator),
        3 => Some(Fact::MinusBefore),
        4 => Some(Fact::MinusAfter),
        5 => Some(Fact::PlusBefore),
        6 => Some(Fact::PlusAfter),
        7 => Some(Fact::Digits),
        8 => Some(Fact::FractionDigits),
        9 => Some(Fact::CashDigits),
        10 => Some(Fact::CashIncrement),
        11 => Some(Fact::Categories),
        _ => None,
    }
}
