//! What texts with a unit are put with.

ghost use Rattle.icu_decimal_direct.specs.Short.{AreFewShown};

use crate::short_text::ShortText;
use crate::text_tables::TextTables;

/// What is written before and after a number of a sign, with the unit in its place: of English and `€` with a minus `-€`
/// and nothing.
#[derive(Clone, Copy, Debug)]
pub struct UnitAffixTexts<'l> {
    /// Before it: `-€`.
    pub before: &'l str,
    /// After it: nothing.
    pub after: &'l str,
}

// The affixes of a sign, held in place.
#[derive(Clone, Copy, Debug)]
pub(crate) struct HeldAffixes {
    pub before: ShortText,
    pub after: ShortText,
}

/// What texts of numbers with a unit are put with: tables, the affixes of each sign with the unit in its place, and how
/// many fraction digits there are at least, and at most.
///
/// With those of English, `€` and two digits at least and at most, -1234.5 is put as `-€1,234.50`. It borrows symbols and
/// digits, and holds the affixes.
#[derive(Clone, Copy, Debug)]
pub struct UnitTextTables<'b> {
    pub(crate) tables: TextTables<'b>,
    pub(crate) none: HeldAffixes,
    pub(crate) minus: HeldAffixes,
    pub(crate) plus: HeldAffixes,
    pub(crate) least: u8,
    pub(crate) most: u8,
    pub(crate) ghost held: { AreFewShown least most },
}
