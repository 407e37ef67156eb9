//! The tables of a formatter, with their short texts as pieces.

ghost use Rattle.std.specs.Prelude.{◌≡◌};
ghost use Rattle.std.specs.Option.{ForSome};
ghost use Rattle.icu_decimal_plain.specs.Pieces.{HoldSeparators, HoldTable};
ghost use Rattle.icu_decimal_plain.specs.Runs.{IsRun};

use crate::runs::run_of;
use crate::text_pieces::{Piece, Separators, pieces_of};
use icu_decimal_symbols::DecimalSymbols;

// Ten digits, the text of each as a piece, and the byte of zero where they are single bytes in a row.
#[derive(Clone, Copy, Debug)]
pub(crate) struct DigitTable<'b> {
    pub chars: &'b [char; 10],
    pub pieces: [Piece; 10],
    pub nought: Option<u8>,
    pub ghost held: { HoldTable pieces chars.now },
    pub ghost in_run: { ForSome nought (λ byte. IsRun byte chars.now) },
}

impl<'b> DigitTable<'b> {
    // These digits, with their pieces.
    pub(crate) fn new(chars: &'b [char; 10]) -> Self
        ensures { result.chars.now ≡ chars.now }
    {
        DigitTable {
            chars,
            pieces: pieces_of(chars),
            nought: run_of(chars),
        }
    }
}

// Symbols, and the separators as pieces. `None`: one of the separators has more than four bytes.
#[derive(Clone, Copy, Debug)]
pub(crate) struct SymbolTable<'b> {
    pub symbols: &'b DecimalSymbols,
    pub separators: Option<Separators>,
    pub ghost held: { ForSome separators (λ s. HoldSeparators s symbols.now) },
}

impl<'b> SymbolTable<'b> {
    // These symbols, with the pieces of their separators.
    pub(crate) fn new(symbols: &'b DecimalSymbols) -> Self
        ensures { result.symbols.now ≡ symbols.now }
    {
        SymbolTable {
            symbols,
            separators: separators_of(symbols),
        }
    }
}

// The separators as pieces, where neither has more than four bytes.
fn separators_of(symbols: &DecimalSymbols) -> Option<Separators>
    ensures { ForSome result (λ s. HoldSeparators s symbols.now) }
{
    let group = symbols.grouping_separator();
    let decimal = symbols.decimal_separator();
    if group.len() > 4 || decimal.len() > 4 {
        return None;
    }
    Some(Separators {
        group: Piece::new(group),
        decimal: Piece::new(decimal),
    })
}
