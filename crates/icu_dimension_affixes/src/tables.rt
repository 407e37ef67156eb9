//! What numbers with a unit are written with.

ghost use Rattle.std.specs.Prelude.{◌≡◌, IfOk, string_bytes};
ghost use Rattle.icu_decimal_plain.specs.BorrowedTables.{borrowed_tables};
ghost use Rattle.icu_dimension_affixes.specs.HeldUnits.{name_of, settings_of};
ghost use Rattle.icu_dimension_affixes.specs.UnitText.{unit_decimal_text, unit_formatted};

use crate::number_in_unit::NumberInUnit;
use crate::patterns::UnitPattern;
use crate::unit::Unit;
use fixed_decimal::{Decimal, Sign};
use icu_decimal_plain::{DecimalTables, FormattedSign};
use std::alloc::{AllocError, Global};
use writeable::Writeable;

/// A decimal with its unit as it is written: `-€1,234.5` in English.
pub type FormattedUnit<'l> = FormattedSign<'l, NumberInUnit<'l>>;

/// What numbers with a unit are written with, all of it borrowed: the tables of a formatter of decimals, a pattern and a
/// unit.
///
/// With the tables of English, `¤` before the number and `€`, -1234.5 is written as `-€1,234.5`.
#[derive(Clone, Copy, Debug)]
pub struct UnitTables<'b> {
    pub(crate) decimals: &'b DecimalTables<'b>,
    pub(crate) pattern: &'b UnitPattern,
    pub(crate) unit: Unit<'b>,
}

impl<'b> UnitTables<'b> {
    /// These tables, this pattern and this unit: those of English, `¤` before the number and `€` write 5 as `€5`. It
    /// does not allocate.
    pub fn new(decimals: &'b DecimalTables<'b>, pattern: &'b UnitPattern, unit: Unit<'b>) -> Self
        ensures { settings_of result
            ≡ record { tables = borrowed_tables decimals.now; pattern = pattern.now; unit = name_of unit.entry } }
    {
        UnitTables {
            decimals,
            pattern,
            unit,
        }
    }

    /// The tables of the formatter of decimals. It does not allocate.
    pub fn decimals(&self) -> &'b DecimalTables<'b>
        ensures { borrowed_tables result.now ≡ (settings_of self.now).tables }
    {
        self.decimals
    }

    /// The pattern: of English `¤` before the number. It does not allocate.
    pub fn pattern(&self) -> &'b UnitPattern
        ensures { result.now ≡ (settings_of self.now).pattern }
    {
        self.pattern
    }

    /// The unit: `€`, a currency. It does not allocate.
    pub fn unit(&self) -> Unit<'b>
        ensures { name_of result ≡ (settings_of self.now).unit }
    {
        self.unit
    }

    /// The decimal with its unit as it is written: -1234.5 as `-€1,234.5` in English. It does not allocate.
    ///
    /// The decimal is written as it is given, with its digits: 12.50 with a percent sign is `12.50%`. What is given borrows
    /// what these tables borrow, and not the tables.
    ///
    /// Source: UTS 35, part 3 (numbers), number patterns.
    pub fn format(self, value: &'b Decimal) -> FormattedUnit<'b>
        ensures { result ≡ unit_formatted (settings_of self.entry) value.now }
    {
        let number = self.decimals.format_unsigned(&value.absolute);
        let symbols = self.decimals.symbols();
        match self.pattern.own(value.sign) {
            Some(own) => {
                let inner = NumberInUnit::new(number, own, self.unit, value.sign);
                FormattedSign::new(Sign::None, symbols, inner)
            }
            None => {
                let unsigned = self.pattern.unsigned();
                let inner = NumberInUnit::new(number, unsigned, self.unit, Sign::None);
                FormattedSign::new(value.sign, symbols, inner)
            }
        }
    }

    /// The text of the decimal with its unit: -1234.5 gives `-€1,234.5` in English.
    ///
    /// It allocates. `AllocError`: out of memory.
    #[tactic(auto, using(crate::proofs::UnitTextLemmas::unit_is_text))]
    pub fn format_to_string(&self, alloc: Global, value: &Decimal) -> Result<String, AllocError>
        ensures { IfOk result (λ text. string_bytes text ≡ unit_decimal_text (settings_of self.now) value.now) }
    {
        self.format(value).write_to_string(alloc)
    }
}
