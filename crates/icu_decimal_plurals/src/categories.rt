//! The categories that rules have.

use crate::category::PluralCategory;
use std::iter::FusedIterator;
use std::marker::Model;
use std::mem;

/// The categories that numbers may have by some rules, from `zero` to `other`: by those of English `one`, `other`. It
/// does not allocate.
#[derive(Drop)]
pub struct PluralCategories {
    pub(crate) zero: bool,
    pub(crate) one: bool,
    pub(crate) two: bool,
    pub(crate) few: bool,
    pub(crate) many: bool,
    pub(crate) other: bool,
}

impl Model for PluralCategories {
    ghost use Rattle.std.specs.Prelude.{List};
    ghost use Rattle.icu_decimal_plurals.specs.declared.category.PluralCategory.{PluralCategory};
    ghost use Rattle.icu_decimal_plurals.specs.HeldCategories.{held};

    ghost Value = { List PluralCategory };

    ghost view = { λ it. held it.zero it.one it.two it.few it.many it.other };
}

impl PluralCategories {
    ghost use Rattle.std.specs.Prelude.{◌≡◌};

    /// The same categories, from the same place on: after `one` of `one`, `other` only `other`. It does not allocate.
    pub fn again(&self) -> PluralCategories
        ensures { result ≡ self.now }
    {
        PluralCategories {
            zero: self.zero,
            one: self.one,
            two: self.two,
            few: self.few,
            many: self.many,
            other: self.other,
        }
    }
}

/// One category after the other; after the last `None`, for good.
impl Iterator for PluralCategories {
    ghost use Rattle.std.specs.Iterator.{YieldsFirst, item_count};

    type Item = PluralCategory;

    ghost next_gives = { YieldsFirst (λ it. it) };

    ghost remaining = { item_count (λ it. it) };

    fn next(&mut self) -> Option<PluralCategory> {
        if mem::take(&mut self.zero) {
            return Some(PluralCategory::Zero);
        }
        if mem::take(&mut self.one) {
            return Some(PluralCategory::One);
        }
        if mem::take(&mut self.two) {
            return Some(PluralCategory::Two);
        }
        if mem::take(&mut self.few) {
            return Some(PluralCategory::Few);
        }
        if mem::take(&mut self.many) {
            return Some(PluralCategory::Many);
        }
        if mem::take(&mut self.other) {
            return Some(PluralCategory::Other);
        }
        None
    }
}

impl FusedIterator for PluralCategories {}
