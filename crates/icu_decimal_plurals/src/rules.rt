//! The rules of a language.

ghost use Rattle.std.specs.Prelude.{◌≡◌, ◌≢◌, ◌⊎◌, Some, None, Err, IfOk, IfErr, IsErrOf};
ghost use Rattle.icu_decimal_plurals.specs.Rules.{is_met};

use crate::categories::PluralCategories;
use crate::category::PluralCategory;
use crate::condition::Condition;
use crate::error::ConditionError;
use crate::operands::PluralOperands;
use crate::reading::read_rules;
use icu_decimal_symbols::error::DataError;
use std::alloc::Global;
use std::marker::Model;

/// The plural rules of a language: a condition for each category but `other`, or none.
///
/// The rules of English have `i = 1 and v = 0` for `one` and no other condition.
#[derive(Debug, Drop)]
pub struct PluralRules {
    pub(crate) zero: Option<Condition>,
    pub(crate) one: Option<Condition>,
    pub(crate) two: Option<Condition>,
    pub(crate) few: Option<Condition>,
    pub(crate) many: Option<Condition>,
}

impl Model for PluralRules {
    ghost use Rattle.icu_decimal_plurals.specs.Rules.{Rules};

    ghost Value = { Rules };

    ghost view = { λ r. record { zero = r.zero; one = r.one; two = r.two; few = r.few; many = r.many } };
}

// Whether there is a condition, and it holds.
fn applies(condition: &Option<Condition>, operands: &PluralOperands) -> bool
    ensures { result ≡ is_met operands.now condition.now }
{
    match condition {
        Some(condition) => condition.holds(operands),
        None => false,
    }
}

impl PluralRules {
    ghost use Rattle.icu_decimal_plurals.specs.Reading.{MayBeRules, NamesOther, pairs_of, rules_of};
    ghost use Rattle.icu_decimal_plurals.specs.ListedRules.{categories_of};
    ghost use Rattle.icu_decimal_plurals.specs.Rules.{category_of};

    /// The rules of these categories and conditions, as CLDR writes them: of `one` and `i = 1 and v = 0 @integer 1`
    /// those of English. The text from the first `@` on is ignored. For `other` only spaces may come before it.
    ///
    /// `Custom`: a text is no condition, one for `other` has a condition, or a category is given twice. `Memory`: out
    /// of memory. It does not allocate where no category but `other` is given, where one is given twice, or where
    /// `other` has a condition. The source is UTS 35, part 3, section 5.1.
    pub fn new(alloc: Global, given: &[(PluralCategory, &str)]) -> Result<PluralRules, DataError>
        ensures ok { IfOk result (λ rules. rules_of (pairs_of given.now) ≡ Some rules) }
        ensures custom { IsErrOf result DataError.Custom → rules_of (pairs_of given.now) ≡ None }
        ensures errors { IfErr result (λ error. (error ≡ DataError.Custom) ⊎ (error ≡ DataError.Memory)) }
        ensures memory { IsErrOf result DataError.Memory → MayBeRules (pairs_of given.now) }
        ensures room { NamesOther (pairs_of given.now) → result ≢ Err DataError.Memory }
    {
        match read_rules(alloc, given) {
            Ok(rules) => Ok(rules),
            Err(ConditionError::Syntax) => Err(DataError::Custom),
            Err(ConditionError::Memory) => Err(DataError::Memory),
        }
    }

    /// The category of a number of these operands: the first of `zero`, `one`, `two`, `few`, `many` whose condition
    /// holds, or else `other`. By the rules of English `1` is of `one`, `1.0` of `other`. It does not allocate.
    ///
    /// After ICU4X's `PluralRules::category_for`; UTS 35, part 3, section 5.
    pub fn category_for(&self, operands: &PluralOperands) -> PluralCategory
        ensures { result ≡ category_of self.now operands.now }
    {
        if applies(&self.zero, operands) {
            PluralCategory::Zero
        } else if applies(&self.one, operands) {
            PluralCategory::One
        } else if applies(&self.two, operands) {
            PluralCategory::Two
        } else if applies(&self.few, operands) {
            PluralCategory::Few
        } else if applies(&self.many, operands) {
            PluralCategory::Many
        } else {
            PluralCategory::Other
        }
    }
    /// The categories that numbers may have: those that have a condition, and `other`, from `zero` to `other`. By the
    /// rules of English they are `one`, `other`. It does not allocate.
    ///
    /// After ICU4X's call of this name.
    #[tactic(auto, using(crate::proofs::ListedLemmas::held_of))]
    pub fn categories(&self) -> PluralCategories
        ensures { result ≡ categories_of self.now }
    {
        PluralCategories {
            zero: self.zero.is_some(),
            one: self.one.is_some(),
            two: self.two.is_some(),
            few: self.few.is_some(),
            many: self.many.is_some(),
            other: true,
        }
    }
}
