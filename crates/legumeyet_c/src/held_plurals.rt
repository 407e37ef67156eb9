//! The rules by whose categories a handle writes words in place of numbers: of its own, or those of a book that is kept.

ghost use Rattle.std.specs.Prelude.{◌≡◌, IfOk, option_map};
ghost use Rattle.locale_numbers.specs.FoundRules.{rules_held};
ghost use Rattle.legumeyet_c.specs.HeldFormats.{plurals_at};

use icu_plurals::{PluralRange, PluralRules, PluralRulesWithRanges};
use std::alloc::{AllocError, Global};

// Rules, and the categories of ranges, in memory of their own.
#[derive(Drop)]
pub(crate) struct OwnPlurals {
    pub(crate) rules: PluralRules,
    pub(crate) ranges: Vec<PluralRange>,
}

// Where the rules are.
#[derive(Drop)]
pub(crate) enum PluralsPlace {
    // In memory of their own.
    Own(Box<OwnPlurals>),
    // In a book that is kept.
    Kept(PluralRulesWithRanges<'static>),
}

// A copy of rules and ranges. `AllocError`: out of memory.
fn own_plurals(alloc: Global, plurals: &PluralRulesWithRanges<'_>) -> Result<OwnPlurals, AllocError>
    ensures { IfOk result (λ own. (own.rules, own.ranges.items) ≡ rules_held plurals.now) }
{
    let rules = plurals.rules.try_clone(alloc)?;
    let ranges = Vec::from_slice(alloc, plurals.ranges)?;
    Ok(OwnPlurals { rules, ranges })
}

// The same in a box, where there are rules.
pub(crate) fn own_plurals_of(
    alloc: Global,
    plurals: Option<&PluralRulesWithRanges<'_>>,
) -> Result<Option<PluralsPlace>, AllocError>
    ensures { IfOk result (λ own. option_map plurals_at own
        ≡ option_map rules_held (option_map (λ p. p.now) plurals.entry)) }
{
    let Some(plurals) = plurals else {
        return Ok(None);
    };
    let own = own_plurals(alloc, plurals)?;
    match Box::new(alloc, own) {
        Ok(own) => Ok(Some(PluralsPlace::Own(own))),
        Err(_) => Err(AllocError),
    }
}

// Those of a book that is kept, where there are rules. It does not allocate.
pub(crate) fn kept_plurals_of(
    plurals: Option<PluralRulesWithRanges<'static>>,
) -> Option<PluralsPlace>
    ensures { option_map plurals_at result ≡ option_map rules_held plurals.entry }
{
    match plurals {
        Some(plurals) => Some(PluralsPlace::Kept(plurals)),
        None => None,
    }
}

impl PluralsPlace {
    // The rules, borrowed for a call. It does not allocate.
    pub(crate) fn lent(&self) -> PluralRulesWithRanges<'_>
        ensures { rules_held result ≡ plurals_at self.now }
    {
        match self {
            PluralsPlace::Own(own) => PluralRulesWithRanges {
                rules: &own.rules,
                ranges: own.ranges.as_slice(),
            },
            PluralsPlace::Kept(plurals) => *plurals,
        }
    }
}
