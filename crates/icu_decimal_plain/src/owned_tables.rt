//! What decimals are written with, in memory of its own.

ghost use Rattle.std.specs.Prelude.{◌≡◌, IfOk, IsOk};
ghost use Rattle.std.specs.Option.{ForSome};
ghost use Rattle.icu_decimal_symbols.specs.Symbols.{HasNoText};
ghost use Rattle.icu_decimal_plain.specs.BorrowedTables.{borrowed_tables};
ghost use Rattle.icu_decimal_plain.specs.Pieces.{HoldSeparators, HoldTable};
ghost use Rattle.icu_decimal_plain.specs.Runs.{IsRun};

use crate::piece_tables::{DigitTable, SymbolTable};
use crate::tables::DecimalTables;
use crate::text_pieces::{Piece, Separators};
use icu_decimal_symbols::DecimalSymbols;
use icu_decimal_symbols::options::GroupingStrategy;
use std::alloc::AllocError;
use std::marker::Model;

/// What decimals are written with, in memory of its own: symbols, digits, and when separators are written.
///
/// Of the tables of English, with `Never`, it lends tables by which -1234.5 is written as `-1234.5`. What is found out
/// of symbols and digits once is kept beside them, so that `tables` only copies it.
#[derive(Debug, Drop)]
pub struct OwnedDecimalTables {
    symbols: DecimalSymbols,
    digits: [char; 10],
    strategy: GroupingStrategy,
    pieces: [Piece; 10],
    nought: Option<u8>,
    separators: Option<Separators>,
    ghost digits_held: { HoldTable pieces digits },
    ghost in_run: { ForSome nought (λ byte. IsRun byte digits) },
    ghost separators_held: { ForSome separators (λ s. HoldSeparators s symbols) },
}

impl Model for OwnedDecimalTables {
    ghost use Rattle.icu_decimal_plain.specs.PlainText.{Tables};

    ghost Value = { Tables };

    ghost view = { λ t. record { symbols = t.symbols; digits = t.digits; strategy = t.strategy } };
}

impl OwnedDecimalTables {
    /// A copy of the tables, with this strategy: of those of English with `Never` one that writes -1234.5 as `-1234.5`.
    /// `AllocError`: out of memory. It does not allocate where the six texts of the symbols are empty.
    pub fn try_from_tables(
        tables: &DecimalTables<'_>,
        strategy: GroupingStrategy,
    ) -> Result<Self, AllocError>
        ensures succeeds { HasNoText (borrowed_tables tables.now).symbols.strings → IsOk result }
        ensures value { IfOk result (λ owned. owned ≡ record (borrowed_tables tables.now) { strategy = strategy }) }
    {
        let symbols = tables.symbols.symbols.try_clone()?;
        Ok(OwnedDecimalTables {
            symbols,
            digits: *tables.digits.chars,
            strategy,
            pieces: tables.digits.pieces,
            nought: tables.digits.nought,
            separators: tables.symbols.separators,
        })
    }

    /// Its tables, lent: of a copy of those of English what writes -1234.5 as `-1,234.5`. It does not allocate.
    pub fn tables(&self) -> DecimalTables<'_>
        ensures { borrowed_tables result ≡ self.now }
    {
        DecimalTables {
            symbols: SymbolTable {
                symbols: &self.symbols,
                separators: self.separators,
            },
            digits: DigitTable {
                chars: &self.digits,
                pieces: self.pieces,
                nought: self.nought,
            },
            strategy: self.strategy,
        }
    }
}
