//! What texts are put with.

ghost use Rattle.icu_decimal_direct.specs.Direct.{AreHeld};

use icu_decimal_symbols::DecimalSymbols;
use icu_decimal_symbols::options::GroupingStrategy;

// From how many digits on there are groups, and how many digits each has between the first and the last.
#[derive(Clone, Copy, Debug)]
pub(crate) struct Grouped {
    pub least: u8,
    pub middle: u8,
}

// The symbols that are put, and the groups.
#[derive(Clone, Copy, Debug)]
pub(crate) struct Direct<'b> {
    pub group: &'b str,
    pub decimal: &'b str,
    pub prefix: &'b str,
    pub suffix: &'b str,
    pub plus_prefix: &'b str,
    pub plus_suffix: &'b str,
    pub groups: Grouped,
}

/// What texts are put with: symbols, digits, and when separators are written. With those of English -1234.5 is put as
/// `-1,234.5`. It borrows symbols and digits.
#[derive(Clone, Copy, Debug)]
pub struct TextTables<'b> {
    pub(crate) symbols: &'b DecimalSymbols,
    pub(crate) digits: &'b [char; 10],
    pub(crate) strategy: GroupingStrategy,
    pub(crate) direct: Direct<'b>,
    pub(crate) ghost held: { AreHeld direct
        (record { symbols = symbols.now; digits = digits.now; strategy = strategy }) },
}
