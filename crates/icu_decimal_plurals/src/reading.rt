//! Rules, read from categories and texts.

ghost use Rattle.std.specs.Prelude.{◌≡◌, ◌==◌, ◌<◌, ◌≤◌, false, length, ◌∷◌, [], Some, None, IfOk, IsOk, IsErrOf, IsErr, IsTrue, Err, ◌≢◌, MatchOption};
ghost use Rattle.std.specs.List.{position};
ghost use Rattle.icu_decimal_plurals.specs.Conditions.{ConditionData};
ghost use Rattle.icu_decimal_plurals.specs.Reading.{samples_mark, before_samples, condition_in, pairs_of, texts_for, condition_by, is_free, is_same, rules_of, MayBeRules, NamesOther};

use crate::category::PluralCategory;
use crate::condition::Condition;
use crate::error::ConditionError;
use crate::grammar::read_condition;
use crate::piece::is_blank;
use crate::rules::PluralRules;
use crate::tokens::tokens;
use std::alloc::Global;

// Where the samples begin.
fn position_of_samples(text: &[u8]) -> Option<usize>
    ensures { result ≡ position (λ c. c == samples_mark) text.now }
{
    text.iter().position(|character| *character == b'@')
}

// What is before the samples.
fn before_samples(text: &[u8]) -> &[u8]
    ensures { result.now ≡ before_samples text.now }
{
    match position_of_samples(text) {
        Some(at) => &text[..at],
        None => text,
    }
}

// The condition that a text spells.
fn read_text(alloc: Global, text: &[u8]) -> Result<Condition, ConditionError>
    ensures ok { IfOk result (λ condition. condition_in text.now ≡ Some condition) }
    ensures syntax { IsErrOf result ConditionError.Syntax → condition_in text.now ≡ None }
{
    let tokens = tokens(alloc, before_samples(text))?;
    read_condition(alloc, tokens.as_slice())
}

// Whether two categories are the same one.
fn is_same(category: PluralCategory, other: PluralCategory) -> bool
    ensures { result ≡ is_same category other }
{
    category == other
}

// The text that is given for a category, or none. `Syntax`: two are given.
fn text_for<'t>(
    category: PluralCategory,
    given: &[(PluralCategory, &'t str)],
) -> Result<Option<&'t str>, ConditionError>
    ensures ok { IfOk result
        (λ found. MatchOption found (texts_for category (pairs_of given.now) ≡ [])
        (λ text. texts_for category (pairs_of given.now) ≡ text.now ∷ [])) }
    ensures syntax { IsErr result → 1 < length (texts_for category (pairs_of given.now)) }
{
    let mut found = None;
    for (other, text) in given {
        if is_same(*other, category) {
            if found.is_some() {
                return Err(ConditionError::Syntax);
            }
            found = Some(*text);
        }
    }
    Ok(found)
}

// The condition that is given for a category, or none. Two are `Syntax`, and without a text no memory is taken.
#[tactic(auto, using(crate::proofs::RulesLemmas::two_conditions))]
fn condition_for(
    alloc: Global,
    category: PluralCategory,
    given: &[(PluralCategory, &str)],
) -> Result<Option<Condition>, ConditionError>
    ensures ok { IfOk result (λ condition. condition_by (texts_for category (pairs_of given.now)) ≡ Some condition) }
    ensures syntax { IsErrOf result ConditionError.Syntax
        → condition_by (texts_for category (pairs_of given.now)) ≡ None }
    ensures room { texts_for category (pairs_of given.now) ≡ [] → IsOk result }
{
    match text_for(category, given)? {
        None => Ok(None),
        Some(text) => {
            let condition = read_text(alloc, text.as_bytes())?;
            Ok(Some(condition))
        }
    }
}

// Whether at most one text is given for `other`, and that has no condition.
#[tactic(auto, using(crate::proofs::RulesLemmas::two_are_not_free))]
fn is_free(given: &[(PluralCategory, &str)]) -> bool
    ensures { result ≡ is_free (texts_for PluralCategory.Other (pairs_of given.now)) }
{
    match text_for(PluralCategory::Other, given) {
        Ok(None) => true,
        Ok(Some(text)) => is_blank(before_samples(text.as_bytes())),
        Err(_) => false,
    }
}

// Whether a category is given once at most.
fn is_once(category: PluralCategory, given: &[(PluralCategory, &str)]) -> bool
    ensures once { IsTrue result → length (texts_for category (pairs_of given.now)) ≤ 1 }
    ensures twice { result ≡ false → 1 < length (texts_for category (pairs_of given.now)) }
{
    text_for(category, given).is_ok()
}

// Whether no category is given twice, and `other` has no condition.
#[tactic(auto, using(crate::proofs::RulesLemmas::once_each, crate::proofs::RulesLemmas::no_rules_unfree, crate::proofs::RulesLemmas::no_rules_zero, crate::proofs::RulesLemmas::no_rules_one, crate::proofs::RulesLemmas::no_rules_two, crate::proofs::RulesLemmas::no_rules_few, crate::proofs::RulesLemmas::no_rules_many))]
fn may_be_rules(given: &[(PluralCategory, &str)]) -> bool
    ensures some { IsTrue result → MayBeRules (pairs_of given.now) }
    ensures none { result ≡ false → rules_of (pairs_of given.now) ≡ None }
{
    is_free(given)
        && is_once(PluralCategory::Zero, given)
        && is_once(PluralCategory::One, given)
        && is_once(PluralCategory::Two, given)
        && is_once(PluralCategory::Few, given)
        && is_once(PluralCategory::Many, given)
}

#[tactic(auto, using(crate::proofs::RulesLemmas::no_text))]
/// The rules of these categories and texts. `Syntax`: they are none.
pub fn read_rules(
    alloc: Global,
    given: &[(PluralCategory, &str)],
) -> Result<PluralRules, ConditionError>
    ensures ok { IfOk result (λ rules. rules_of (pairs_of given.now) ≡ Some rules) }
    ensures syntax { IsErrOf result ConditionError.Syntax → rules_of (pairs_of given.now) ≡ None }
    ensures memory { IsErrOf result ConditionError.Memory → MayBeRules (pairs_of given.now) }
    ensures room { NamesOther (pairs_of given.now) → result ≢ Err ConditionError.Memory }
{
    if !may_be_rules(given) {
        return Err(ConditionError::Syntax);
    }
    let zero = condition_for(alloc, PluralCategory::Zero, given)?;
    let one = condition_for(alloc, PluralCategory::One, given)?;
    let two = condition_for(alloc, PluralCategory::Two, given)?;
    let few = condition_for(alloc, PluralCategory::Few, given)?;
    let many = condition_for(alloc, PluralCategory::Many, given)?;
    Ok(PluralRules {
        zero,
        one,
        two,
        few,
        many,
    })
}
