//! A value for each plural category.

ghost use Rattle.std.specs.Prelude.{◌≡◌, option_map};
ghost use Rattle.std.specs.Cmp.{partial_equiv_from_equiv};
ghost use Rattle.locale_numbers_words.specs.Categories.{of_category, only, own_value};
ghost use Rattle.locale_numbers_words.specs.SameValues.{same_large, same_small, same_values, same_values_equiv};

use icu_decimal::plurals::PluralCategory;
use std::marker::Model;

/// A value for each plural category: that of `other`, which is always there, and those that the others have.
///
/// The names of dollars in English are `US dollar` for `one` and `US dollars` for `other`.
#[derive(Debug, Drop)]
pub struct ByCategory<T> {
    pub zero: Option<T>,
    pub one: Option<T>,
    pub two: Option<T>,
    pub few: Option<T>,
    pub many: Option<T>,
    pub other: T,
}

impl<T> Model for ByCategory<T> {
    ghost use Rattle.locale_numbers_words.specs.Categories.{Values};

    ghost Value = { Values T };

    ghost view = { λ v. record {
      zero = v.zero;
      one = v.one;
      two = v.two;
      few = v.few;
      many = v.many;
      other = v.other;
    } };
}

impl<T> ByCategory<T> {
    /// Only this value, of `other`: each category has it. It does not allocate.
    pub fn only(other: T) -> Self
        ensures { result ≡ only other }
    {
        ByCategory {
            zero: None,
            one: None,
            two: None,
            few: None,
            many: None,
            other,
        }
    }

    /// The value that a category has of its own: none of `few` in English. It does not allocate.
    pub fn own(&self, category: PluralCategory) -> Option<&T>
        ensures { option_map (λ value. value.now) result ≡ own_value self.now category }
    {
        match category {
            PluralCategory::Zero => self.zero.as_ref(),
            PluralCategory::One => self.one.as_ref(),
            PluralCategory::Two => self.two.as_ref(),
            PluralCategory::Few => self.few.as_ref(),
            PluralCategory::Many => self.many.as_ref(),
            PluralCategory::Other => Some(&self.other),
        }
    }

    /// The value of a category, or that of `other` where it has none of its own. It does not allocate.
    pub fn get(&self, category: PluralCategory) -> &T
        ensures { result.now ≡ of_category self.now category }
    {
        self.own(category).unwrap_or(&self.other)
    }
}

impl<T: Eq> ByCategory<T> {
    // Whether the values of `zero`, `one` and `two` are the same.
    fn has_same_small(&self, other: &Self) -> bool
        ensures { result ≡ same_small T.eq self.now other.now }
    {
        self.zero == other.zero && self.one == other.one && self.two == other.two
    }

    // Whether the values of `few`, `many` and `other` are the same.
    fn has_same_large(&self, other: &Self) -> bool
        ensures { result ≡ same_large T.eq self.now other.now }
    {
        self.few == other.few && self.many == other.many && self.other == other.other
    }
}

/// Equal where the same categories have equal values of their own.
impl<T: Eq> PartialEq for ByCategory<T> {
    ghost eq = { same_values T.eq };

    ghost laws = { partial_equiv_from_equiv (same_values_equiv T.eq T.Eq.laws) };

    fn eq(&self, other: &Self) -> bool {
        self.has_same_small(other) && self.has_same_large(other)
    }
}

impl<T: Eq> Eq for ByCategory<T> {
    ghost laws = { same_values_equiv T.eq T.Eq.laws };
}
