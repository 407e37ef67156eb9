//! Laws, beside the clauses of the calls: equal symbols are one value.

ghost use Rattle.std.specs.Prelude.{◌≡◌, ◌↔◌, IsTrue};

use crate::strings::DecimalSymbolStrsBuilder;
use crate::symbols::DecimalSymbols;

/// Two tables of symbols are `==` exactly where they are one value: true of those of English and a copy of them, false
/// of those of English and of the same with `;` for `,`.
pub fn same_symbols(one: &DecimalSymbols, other: &DecimalSymbols) -> bool
    ensures { IsTrue result ↔ (one.now ≡ other.now) }
{
    one == other
}

/// Two builders of texts are `==` exactly where they are one value: true of two with `-`, `+`, `.`, `,` and `latn`,
/// false where one has `;` for `,`.
pub fn same_builders(one: &DecimalSymbolStrsBuilder, other: &DecimalSymbolStrsBuilder) -> bool
    ensures { IsTrue result ↔ (one.now ≡ other.now) }
{
    one == other
}
