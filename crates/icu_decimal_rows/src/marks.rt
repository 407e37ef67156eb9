//! Symbols and digits that a row spells.

use icu_decimal::provider::{DecimalSymbolStrsBuilder, DecimalSymbols, GroupingSizes};
use rows::{Stop, number_of};
use std::alloc::{AllocError, Global};
use tinystr::TinyAsciiStr;

/// The separators, the sizes, the signs and the digits of a row.
#[derive(Clone, Copy)]
pub struct Marks<'r> {
    decimal: &'r str,
    group: &'r str,
    sizes: GroupingSizes,
    signs: Signs<'r>,
    /// The ten digits, that of zero first.
    pub digits: [char; 10],
}

/// The prefixes of signs, which have no suffixes.
#[derive(Clone, Copy)]
pub struct Signs<'r> {
    pub minus: &'r str,
    pub plus: &'r str,
}

// The three sizes of `3,2,1`: primary, secondary and least.
fn sizes_of(field: &str) -> Result<GroupingSizes, Stop> {
    let Some((primary, behind)) = field.split_once(',') else {
        return Err(Stop::Unknown);
    };
    let Some((secondary, min_grouping)) = behind.split_once(',') else {
        return Err(Stop::Unknown);
    };
    Ok(GroupingSizes {
        primary: number_of(primary)?,
        secondary: number_of(secondary)?,
        min_grouping: number_of(min_grouping)?,
    })
}

// The ten characters of a text.
fn digits_of(field: &str) -> Result<[char; 10], Stop> {
    let mut digits = ['0'; 10];
    let mut count = 0;
    for character in field.chars() {
        let Some(digit) = digits.get_mut(count) else {
            return Err(Stop::Unknown);
        };
        *digit = character;
        count += 1;
    }
    if count == 10 {
        Ok(digits)
    } else {
        Err(Stop::Unknown)
    }
}

impl<'r> Marks<'r> {
    /// The marks that fields spell, with these signs.
    pub fn of(
        signs: Signs<'r>,
        decimal: &'r str,
        group: &'r str,
        sizes: &str,
        digits: &str,
    ) -> Result<Marks<'r>, Stop> {
        Ok(Marks {
            decimal,
            group,
            sizes: sizes_of(sizes)?,
            signs,
            digits: digits_of(digits)?,
        })
    }

    /// The symbols with these separators and sizes.
    pub fn symbols(&self, alloc: Global) -> Result<DecimalSymbols, Stop> {
        let numsys = match TinyAsciiStr::try_from_str("latn") {
            Ok(system) => system,
            Err(_) => return Err(Stop::Unknown),
        };
        let (decimal_separator, grouping_separator) = self.separators(alloc)?;
        let minus_sign_prefix = String::from_str(alloc, self.signs.minus)?;
        let plus_sign_prefix = String::from_str(alloc, self.signs.plus)?;
        let texts = DecimalSymbolStrsBuilder {
            minus_sign_prefix,
            minus_sign_suffix: String::new(alloc),
            plus_sign_prefix,
            plus_sign_suffix: String::new(alloc),
            decimal_separator,
            grouping_separator,
            numsys,
        };
        Ok(DecimalSymbols {
            strings: texts.build(),
            grouping_sizes: self.sizes,
        })
    }

    // The two separators.
    fn separators(&self, alloc: Global) -> Result<(String, String), AllocError> {
        let decimal = String::from_str(alloc, self.decimal)?;
        Ok((decimal, String::from_str(alloc, self.group)?))
    }
}
