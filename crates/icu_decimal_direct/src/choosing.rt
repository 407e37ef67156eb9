//! Which symbols and groups texts are put with.

ghost use Rattle.std.specs.Prelude.{◌≡◌, IfSome, IsSome};
ghost use Rattle.icu_decimal_direct.specs.Direct.{AreGrouped};
ghost use Rattle.icu_decimal_direct.specs.TextTables.{CanPut, HasKnownGroups, text_tables};

use crate::text_tables::{Direct, Grouped, TextTables};
use icu_decimal_symbols::options::GroupingStrategy;
use icu_decimal_symbols::{DecimalSymbols, GroupingSizes};

// Where there are no groups, more digits than a text may have.
const NEVER: u8 = 255;

// The digits that texts have.
const ASCII: [char; 10] = ['0', '1', '2', '3', '4', '5', '6', '7', '8', '9'];

// The groups. `None`: the last has not three digits, or those before it have neither three nor two, or there are some only
// from very many digits on.
fn groups_of(strategy: GroupingStrategy, sizes: GroupingSizes) -> Option<Grouped>
    ensures groups { IfSome result (λ groups. AreGrouped strategy sizes groups) }
    ensures some { HasKnownGroups strategy sizes → IsSome result }
{
    if sizes.primary == 0 || matches!(strategy, GroupingStrategy::Never) {
        return Some(Grouped {
            least: NEVER,
            middle: 3,
        });
    }
    if sizes.primary != 3 || sizes.min_grouping > 200 {
        return None;
    }
    let middle = if sizes.secondary == 0 {
        3
    } else {
        sizes.secondary
    };
    if middle != 3 && middle != 2 {
        return None;
    }
    let front = match strategy {
        GroupingStrategy::Min2 => sizes.min_grouping.max(2),
        GroupingStrategy::OnAligned => 1,
        _ => sizes.min_grouping.max(1),
    };
    Some(Grouped {
        least: 3 + front,
        middle,
    })
}

impl<'b> TextTables<'b> {
    /// These symbols, these ten digits from zero up, and this strategy: of English with `Never`, -1234.5 is put as
    /// `-1234.5`.
    ///
    /// `None`: the digits are not `0` to `9`, a separator or an affix of a sign has more than four bytes, or the
    /// groups are others than of three digits, of two before the last, or none. It does not allocate.
    pub fn of(
        symbols: &'b DecimalSymbols,
        digits: &'b [char; 10],
        strategy: GroupingStrategy,
    ) -> Option<TextTables<'b>>
        ensures value { IfSome result (λ tables.
            text_tables tables ≡ record { symbols = symbols.now; digits = digits.now; strategy = strategy }) }
        ensures some { CanPut (record { symbols = symbols.now; digits = digits.now; strategy = strategy })
            → IsSome result }
    {
        if *digits != ASCII {
            return None;
        }
        let direct = Direct {
            group: symbols.grouping_separator(),
            decimal: symbols.decimal_separator(),
            prefix: symbols.minus_sign_prefix(),
            suffix: symbols.minus_sign_suffix(),
            plus_prefix: symbols.plus_sign_prefix(),
            plus_suffix: symbols.plus_sign_suffix(),
            groups: groups_of(strategy, symbols.grouping_sizes)?,
        };
        if direct.group.len() > 4 || direct.decimal.len() > 4 {
            return None;
        }
        if direct.prefix.len() > 4 || direct.suffix.len() > 4 {
            return None;
        }
        if direct.plus_prefix.len() > 4 || direct.plus_suffix.len() > 4 {
            return None;
        }
        Some(TextTables {
            symbols,
            digits,
            strategy,
            direct,
        })
    }
}
