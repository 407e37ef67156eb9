//! One value for each plural.

ghost use Rattle.std.specs.Prelude.{◌≡◌, ◌≢◌, IfNone, IfOk, IfSome, IsTrue, option_map};
ghost use Rattle.std.specs.Cmp.{partial_equiv_from_equiv};
ghost use Rattle.std.specs.Option.{option_eq};
ghost use Rattle.icu_decimal_patterns.specs.Elements.{category_slot, explicit_slot, has_slot, only_other, slot_of, without_one, with_explicit_zero, with_explicit_one, with_zero, with_one, with_two, with_few, with_many};
ghost use Rattle.icu_decimal_patterns.specs.SameElements.{same_elements, same_elements_equiv, same_explicit, same_large, same_small};

use icu_decimal_plurals::{PluralCategory, PluralOperands, PluralRules};
use std::marker::Model;

/// A value for each plural: slots `0` and `1`, a slot for each category, and `other`, which is always there.
///
/// In English `thousand` for slot `1` and `thousands` for `other` give `thousand` for `1`, and `thousands` for `2` and
/// for `1.0`. After ICU4X's `PluralElements`.
#[derive(Debug, Drop)]
pub struct PluralElements<T> {
    pub(crate) explicit_zero: Option<T>,
    pub(crate) explicit_one: Option<T>,
    pub(crate) zero: Option<T>,
    pub(crate) one: Option<T>,
    pub(crate) two: Option<T>,
    pub(crate) few: Option<T>,
    pub(crate) many: Option<T>,
    pub(crate) other: T,
}

impl<T> Model for PluralElements<T> {
    ghost use Rattle.icu_decimal_patterns.specs.Elements.{Elements};

    ghost Value = { Elements T };

    ghost view = { λ s. record {
      explicit_zero = s.explicit_zero;
      explicit_one = s.explicit_one;
      zero = s.zero;
      one = s.one;
      two = s.two;
      few = s.few;
      many = s.many;
      other = s.other;
    } };
}

impl<T> PluralElements<T> {
    /// These values with only `other`, which every number takes: with `K`, `1` and `2` take `K`. It does not allocate.
    pub fn new(other: T) -> Self
        ensures { result ≡ only_other other }
    {
        PluralElements {
            explicit_zero: None,
            explicit_one: None,
            zero: None,
            one: None,
            two: None,
            few: None,
            many: None,
            other,
        }
    }

    // Whether there is a slot beside `other`.
    fn has_slot(&self) -> bool
        ensures { result ≡ has_slot self.now }
    {
        self.explicit_zero.is_some()
            || self.explicit_one.is_some()
            || self.zero.is_some()
            || self.one.is_some()
            || self.two.is_some()
            || self.few.is_some()
            || self.many.is_some()
    }

    // The value of slot `0` or `1`, for a number that is shown as just that digit.
    fn explicit(&self, operands: &PluralOperands) -> Option<&T>
        ensures { option_map (λ x. x.now) result ≡ explicit_slot self.now operands.now }
    {
        if operands.is_exactly(0) {
            self.explicit_zero.as_ref()
        } else if operands.is_exactly(1) {
            self.explicit_one.as_ref()
        } else {
            None
        }
    }

    // The value of a category's own slot.
    fn of_category(&self, category: PluralCategory) -> Option<&T>
        ensures { option_map (λ x. x.now) result ≡ category_slot self.now category }
    {
        match category {
            PluralCategory::Zero => self.zero.as_ref(),
            PluralCategory::One => self.one.as_ref(),
            PluralCategory::Two => self.two.as_ref(),
            PluralCategory::Few => self.few.as_ref(),
            PluralCategory::Many => self.many.as_ref(),
            PluralCategory::Other => None,
        }
    }

    /// The value of `other` where it is the only one, so that every number takes it: of `thousands` for `other` and no
    /// other slot `thousands`, and `None` where slot `1` is there too. It does not allocate.
    ///
    /// After ICU4X's `try_into_other`.
    #[tactic(auto, using(crate::proofs::ElementsLemmas::other_stands_alone, crate::proofs::ElementsLemmas::other_has_company))]
    pub fn other_alone(&self) -> Option<&T>
        ensures some { IfSome result (λ x. self.now ≡ only_other x.now) }
        ensures none { IfNone result (self.now ≢ only_other self.now.other) }
    {
        if self.has_slot() {
            None
        } else {
            Some(&self.other)
        }
    }

    /// The value for a number of these operands: that of slot `0` or `1` where the number is shown as just that digit,
    /// or with zeros before it, else that of its category, else `other`. With `thousand` in slot `1` it is `thousand`
    /// for `1`, but not for `1.0`. It does not allocate.
    pub fn get(&self, operands: &PluralOperands, rules: &PluralRules) -> &T
        ensures { result.now ≡ slot_of self.now rules.now operands.now }
    {
        let category = rules.category_for(operands);
        self.explicit(operands)
            .or(self.of_category(category))
            .unwrap_or(&self.other)
    }
}

impl<T: Drop> PluralElements<T> {
    /// The same with this value for the category `zero`, or with none: the number then takes `other`. With `nothing`
    /// for it, `0` takes `nothing` in Arabic. It does not allocate.
    pub fn with_zero_value(mut self, zero: Option<T>) -> Self
        ensures { result ≡ with_zero self zero }
    {
        self.zero = zero;
        self
    }

    /// The same with this value for the category `one`, or with none. With `thousand` for it, `1` takes `thousand` in
    /// English. It does not allocate.
    pub fn with_one_value(mut self, one: Option<T>) -> Self
        ensures { result ≡ with_one self one }
    {
        self.one = one;
        self
    }

    /// The same with this value for the category `two`, or with none. With `pair` for it, `2` takes `pair` in Arabic.
    /// It does not allocate.
    pub fn with_two_value(mut self, two: Option<T>) -> Self
        ensures { result ≡ with_two self two }
    {
        self.two = two;
        self
    }

    /// The same with this value for the category `few`, or with none. With `some` for it, `2` and `22` take `some` in
    /// Polish. It does not allocate.
    pub fn with_few_value(mut self, few: Option<T>) -> Self
        ensures { result ≡ with_few self few }
    {
        self.few = few;
        self
    }

    /// The same with this value for the category `many`, or with none. With `lots` for it, `5` and `12` take `lots` in
    /// Polish. It does not allocate.
    pub fn with_many_value(mut self, many: Option<T>) -> Self
        ensures { result ≡ with_many self many }
    {
        self.many = many;
        self
    }

    /// The same with this value for a number that is shown as `0` or `00`, or with none. With `nothing` for it, `0`
    /// takes `nothing`, and `0.0` does not. It does not allocate.
    pub fn with_explicit_zero_value(mut self, explicit_zero: Option<T>) -> Self
        ensures { result ≡ with_explicit_zero self explicit_zero }
    {
        self.explicit_zero = explicit_zero;
        self
    }

    /// The same with this value for a number that is shown as `1` or `01`, or with none. With `a thousand` for it, `1`
    /// takes `a thousand`, and `1.0` does not. It does not allocate.
    pub fn with_explicit_one_value(mut self, explicit_one: Option<T>) -> Self
        ensures { result ≡ with_explicit_one self explicit_one }
    {
        self.explicit_one = explicit_one;
        self
    }
}

impl<T: Eq> PluralElements<T> {
    // Whether slots `0` and `1` are the same.
    fn has_same_explicit(&self, other: &Self) -> bool
        ensures { result ≡ same_explicit T.eq self.now other.now }
    {
        self.explicit_zero == other.explicit_zero && self.explicit_one == other.explicit_one
    }

    // Whether the slots of `zero`, `one` and `two` are the same.
    fn has_same_small(&self, other: &Self) -> bool
        ensures { result ≡ same_small T.eq self.now other.now }
    {
        self.zero == other.zero && self.one == other.one && self.two == other.two
    }

    // Whether the slots of `few`, `many` and `other` are the same.
    fn has_same_large(&self, other: &Self) -> bool
        ensures { result ≡ same_large T.eq self.now other.now }
    {
        self.few == other.few && self.many == other.many && self.other == other.other
    }

    // Whether these are the values of `other` without its slot `1`.
    pub(crate) fn is_without_one(&self, other: &Self) -> bool
        ensures { result ≡ same_elements T.eq self.now (without_one other.now) }
    {
        self.explicit_one.is_none()
            && self.explicit_zero == other.explicit_zero
            && self.has_same_small(other)
            && self.has_same_large(other)
    }
}

/// Equal where the same slots hold equal values: only `K` for `other` is not `K` for `one` and for `other`.
impl<T: Eq> PartialEq for PluralElements<T> {
    ghost eq = { same_elements T.eq };

    ghost laws = { partial_equiv_from_equiv (same_elements_equiv T.eq T.Eq.laws) };

    fn eq(&self, other: &Self) -> bool {
        self.has_same_explicit(other) && self.has_same_small(other) && self.has_same_large(other)
    }
}

impl<T: Eq> Eq for PluralElements<T> {
    ghost laws = { same_elements_equiv T.eq T.Eq.laws };
}
