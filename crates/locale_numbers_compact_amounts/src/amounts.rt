//! The compact amounts of a locale.

ghost use Rattle.std.specs.Prelude.{◌≡◌};

use icu_dimension_compact::ShortCurrencyCompact;
use std::marker::Model;

/// The compact amounts of a locale: in English `¤` and `K` are around thousands.
#[derive(Debug, Drop)]
pub struct CompactAmounts {
    table: ShortCurrencyCompact,
}

impl Model for CompactAmounts {
    ghost use Rattle.icu_dimension_compact.specs.AmountTables.{AmountTable};

    ghost Value = { AmountTable };

    ghost view = { λ a. a.table };
}

impl CompactAmounts {
    // Those of a table.
    pub(crate) fn new(table: ShortCurrencyCompact) -> Self
        ensures { result ≡ table }
    {
        CompactAmounts { table }
    }

    /// The table that amounts are written by: that of English. It does not allocate.
    pub fn table(&self) -> &ShortCurrencyCompact
        ensures { result.now ≡ self.now }
    {
        &self.table
    }
}
