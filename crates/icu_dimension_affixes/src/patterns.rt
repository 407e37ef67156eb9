//! Patterns of units.

ghost use Rattle.std.specs.Prelude.{◌≡◌, IfOk, IfSome, IsOk};
ghost use Rattle.std.specs.Option.{option_copied};
ghost use Rattle.icu_dimension_affixes.specs.UnitPatterns.{HasNoText, HaveNoText, chosen, is_letter_next, own_affixes};

use crate::affixes::{UnitAffixes, UnitPlace};
use fixed_decimal::Sign;
use std::alloc::{AllocError, Global};
use std::marker::Model;

/// The pattern of a unit: the affixes of a number without a sign, and those that a minus or a plus sign has of its own.
///
/// Where a sign has none of its own, its symbols come around the ones without a sign: `-€5`. In Swiss German `¤-` and
/// the empty text are a minus sign's own: `CHF-5`.
#[derive(Debug, Drop)]
pub struct UnitPattern {
    unsigned: UnitAffixes,
    minus: Option<UnitAffixes>,
    plus: Option<UnitAffixes>,
}

impl Model for UnitPattern {
    ghost use Rattle.icu_dimension_affixes.specs.UnitPatterns.{PatternTexts};

    ghost Value = { PatternTexts };

    ghost view = { λ p. record { unsigned = p.unsigned; minus = p.minus; plus = p.plus } };
}

// A copy of affixes, where there are some.
fn copied(alloc: Global, affixes: &Option<UnitAffixes>) -> Result<Option<UnitAffixes>, AllocError>
    ensures succeeds { IfSome affixes.now HasNoText → IsOk result }
    ensures value { IfOk result (λ copy. copy ≡ affixes.now) }
{
    match affixes {
        Some(affixes) => match affixes.try_clone(alloc) {
            Ok(copy) => Ok(Some(copy)),
            Err(refused) => Err(refused),
        },
        None => Ok(None),
    }
}

impl UnitPattern {
    /// The pattern with these affixes: of `¤ ` before the number and no others `CHF 5` and `-CHF 5`. It does not
    /// allocate.
    pub fn new(unsigned: UnitAffixes, minus: Option<UnitAffixes>, plus: Option<UnitAffixes>) -> Self
        ensures { result ≡ record { unsigned = unsigned; minus = minus; plus = plus } }
    {
        UnitPattern {
            unsigned,
            minus,
            plus,
        }
    }

    /// The affixes of a number without a sign: `¤ ` and the empty text of `CHF 5`. It does not allocate.
    pub fn unsigned(&self) -> &UnitAffixes
        ensures { result.now ≡ self.now.unsigned }
    {
        &self.unsigned
    }

    /// The affixes that a sign has of its own: in Swiss German `¤-` and the empty text of a minus sign. `None` where it
    /// has none, and without a sign. It does not allocate.
    pub fn own(&self, sign: Sign) -> Option<&UnitAffixes>
        ensures { option_copied result ≡ own_affixes self.now sign }
    {
        match sign {
            Sign::None => None,
            Sign::Negative => self.minus.as_ref(),
            Sign::Positive => self.plus.as_ref(),
        }
    }

    /// A copy of the pattern: of that of Swiss German another, with `¤-` of its own for a minus sign.
    ///
    /// `AllocError`: out of memory. It allocates for each text of the affixes that is not empty.
    pub fn try_clone(&self, alloc: Global) -> Result<Self, AllocError>
        ensures succeeds { HaveNoText self.now → IsOk result }
        ensures value { IfOk result (λ copy. copy ≡ self.now) }
    {
        let unsigned = self.unsigned.try_clone(alloc)?;
        let minus = copied(alloc, &self.minus)?;
        let plus = copied(alloc, &self.plus)?;
        Ok(UnitPattern::new(unsigned, minus, plus))
    }
}

/// Which ends of a unit's text are letters: of `US$` the first, of `CHF` both, of `€` neither.
#[derive(Clone, Copy, Debug, PartialEq, Eq)]
pub struct LetterEnds {
    /// Whether the first character is a letter: of `US$` it is.
    pub first: bool,
    /// Whether the last character is a letter: of `US$` it is not.
    pub last: bool,
}

impl LetterEnds {
    // Whether the end that is next to the number is a letter.
    fn is_next(self, place: UnitPlace) -> bool
        ensures { result ≡ is_letter_next place self }
    {
        match place {
            UnitPlace::Before => self.last,
            UnitPlace::After => self.first,
        }
    }
}

/// The pattern of a unit, and the one for a unit with a letter next to the number, where there is one: in English `$5`,
/// but `CHF 5`.
#[derive(Debug, Drop)]
pub struct UnitPatterns {
    standard: UnitPattern,
    alpha_next_to_number: Option<UnitPattern>,
}

impl Model for UnitPatterns {
    ghost use Rattle.icu_dimension_affixes.specs.UnitPatterns.{PatternChoice};

    ghost Value = { PatternChoice };

    ghost view = { λ p. record { standard = p.standard; alpha_next_to_number = p.alpha_next_to_number } };
}

impl UnitPatterns {
    /// These patterns: in English `¤` before the number, and `¤ ` for a unit with a letter next to it. It does not
    /// allocate.
    pub fn new(standard: UnitPattern, alpha_next_to_number: Option<UnitPattern>) -> Self
        ensures { result ≡ record { standard = standard; alpha_next_to_number = alpha_next_to_number } }
    {
        UnitPatterns {
            standard,
            alpha_next_to_number,
        }
    }

    /// The pattern for a unit with these ends: in English of `CHF`, both of whose ends are letters, the one with a
    /// space. It does not allocate.
    ///
    /// The end that counts is the one next to the number: the last where the standard pattern has the unit before it,
    /// else the first.
    ///
    /// Source: UTS 35, part 3 (numbers), currency formats: `alphaNextToNumber` and currency spacing.
    pub fn for_ends(&self, ends: LetterEnds) -> &UnitPattern
        ensures { result.now ≡ chosen self.now ends }
    {
        match &self.alpha_next_to_number {
            Some(beside) if ends.is_next(self.standard.unsigned.place()) => beside,
            _ => &self.standard,
        }
    }
}
