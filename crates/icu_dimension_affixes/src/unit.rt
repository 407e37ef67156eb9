//! What a number is counted in.

ghost use Rattle.std.specs.Prelude.{◌≡◌, false, is_err, OnOk, OnErr};
ghost use Rattle.writeable.specs.PartName.{name_of as part_name};
ghost use Rattle.writeable.specs.Taking.{HasBegun};
ghost use Rattle.icu_dimension_affixes.specs.HeldUnits.{name_of};
ghost use Rattle.icu_dimension_affixes.specs.UnitText.{unit_events, unit_part};

use crate::parts;
use writeable::{Error, Part, Sink};

/// What kind of unit: which part its text is.
#[derive(Clone, Copy, Debug, PartialEq, Eq)]
pub enum UnitKind {
    /// A currency: its text is the part `CURRENCY`, as `€` of `€5`.
    Currency,
    /// Percent: its text is the part `PERCENT_SIGN`, as `%` of `5%`.
    Percent,
}

impl UnitKind {
    // The part that the text of a unit is.
    fn part(self) -> Part
        ensures { part_name result ≡ unit_part self }
    {
        match self {
            UnitKind::Currency => parts::CURRENCY,
            UnitKind::Percent => parts::PERCENT_SIGN,
        }
    }
}

/// A unit: `€`, `CHF` or `%`. The text is borrowed.
#[derive(Clone, Copy, Debug)]
pub struct Unit<'l> {
    /// What kind of unit it is.
    pub kind: UnitKind,
    /// How it is written: `€`, `CHF` or `%`.
    pub text: &'l str,
}

// Writes a unit as its part.
pub(crate) fn write_unit<S: Sink>(unit: &Unit<'_>, sink: &mut S) -> Result<(), Error>
    requires { S.refused sink.old ≡ false }
    ensures ok { OnOk result (S.takes sink.old (unit_events (name_of unit.now)) sink.new) }
    ensures refused { S.refused sink.new ≡ is_err result }
    ensures begun { OnErr result (HasBegun S.takes S.lacks_room sink.old (unit_events (name_of unit.now)) sink.new) }
{
    sink.open_part(unit.kind.part())?;
    sink.write_str(unit.text)?;
    sink.close_part()
}
