//! The words of units, by their names.

ghost use Rattle.std.specs.Prelude.{◌≡◌};
ghost use Rattle.std.specs.Cmp.{partial_equiv_from_equiv};
ghost use Rattle.std.specs.Option.{option_copied};
ghost use Rattle.locale_numbers_words.specs.Entries.{same_unit, same_units, unit_at};
ghost use Rattle.locale_numbers_words.specs.SameUnits.{same_unit_equiv};

use crate::by_category::ByCategory;
use crate::texts::{TextPair, UnitText};
use crate::unit_name::unit_name;
use indexmap::IndexMap;
use locale_numbers_tables::Seed;
use std::marker::Model;
use tinystr::TinyAsciiStr;

/// The words of a unit in one locale and width: those beside a number, and the pair that the unit has behind another one.
///
/// Of `kilometer` in English, long, they are ` kilometer` for `one` and ` kilometers` for `other`, and ` per kilometer`.
/// A unit of two, as `kilometer-per-hour`, has no such pair.
#[derive(Debug, Drop)]
pub struct UnitWords {
    pub words: ByCategory<UnitText>,
    pub behind: Option<TextPair>,
}

impl Model for UnitWords {
    ghost use Rattle.locale_numbers_words.specs.Entries.{UnitTexts};

    ghost Value = { UnitTexts };

    ghost view = { λ w. record { words = w.words; behind = w.behind } };
}

/// Equal where the words are, and the pairs behind another unit.
impl PartialEq for UnitWords {
    ghost eq = { same_unit };

    ghost laws = { partial_equiv_from_equiv same_unit_equiv };

    fn eq(&self, other: &Self) -> bool {
        self.words == other.words && self.behind == other.behind
    }
}

impl Eq for UnitWords {
    ghost laws = { same_unit_equiv };
}

/// The units of a locale and a width, by their names.
pub struct UnitTable {
    pub(crate) units: IndexMap<TinyAsciiStr<32>, UnitWords, Seed>,
}

impl Model for UnitTable {
    ghost use Rattle.locale_numbers_words.specs.Entries.{UnitList};

    ghost Value = { UnitList };

    ghost view = { λ t. t.units.entries };
}

// Dropped by one call.
impl Drop for UnitTable {
    fn drop(self) {
        let UnitTable { units: _units } = self;
    }
}

impl UnitTable {
    /// The words of a unit: `None` where the table has none, or the text is not the name of a unit. It does not allocate.
    pub fn get(&self, unit: &str) -> Option<&UnitWords>
        ensures { option_copied result ≡ unit_at unit.now self.now }
    {
        match unit_name(unit) {
            Some(name) => self.units.get(&name),
            None => None,
        }
    }

    // Whether both have the same units, with the same words.
    pub(crate) fn is_same(&self, other: &Self) -> bool
        ensures { result ≡ same_units self.now other.now }
    {
        self.units == other.units
    }
}
