//! Copies of rules.

ghost use Rattle.std.specs.Prelude.{◌≡◌, IfOk, IsOk, None};
ghost use Rattle.icu_decimal_plurals.specs.Rules.{no_rules};

use crate::condition::{AndCondition, Condition, Relation};
use crate::rules::PluralRules;
use std::alloc::{AllocError, Global};

// An equal relation.
fn relation_copied(alloc: Global, relation: &Relation) -> Result<Relation, AllocError>
    ensures { IfOk result (λ copy. copy ≡ relation.now) }
{
    let intervals = Vec::from_slice(alloc, relation.intervals.as_slice())?;
    Ok(Relation {
        operand: relation.operand,
        modulus: relation.modulus,
        is_denied: relation.is_denied,
        intervals,
    })
}

// Equal relations, in their order.
fn relations_copied(alloc: Global, relations: &[Relation]) -> Result<Vec<Relation>, AllocError>
    ensures { IfOk result (λ copies. copies.items ≡ relations.now) }
{
    let mut copies = Vec::with_capacity(alloc, relations.len())?;
    for each in relations {
        let copy = relation_copied(alloc, each)?;
        copies.push(copy)?;
    }
    Ok(copies)
}

// Equal alternatives, in their order.
fn alternatives_copied(
    alloc: Global,
    alternatives: &[AndCondition],
) -> Result<Vec<AndCondition>, AllocError>
    ensures { IfOk result (λ copies. copies.items ≡ alternatives.now) }
{
    let mut copies = Vec::with_capacity(alloc, alternatives.len())?;
    for each in alternatives {
        let relations = relations_copied(alloc, each.relations.as_slice())?;
        copies.push(AndCondition { relations })?;
    }
    Ok(copies)
}

// An equal condition, where there is one; without one no memory is taken.
fn copied(alloc: Global, condition: &Option<Condition>) -> Result<Option<Condition>, AllocError>
    ensures value { IfOk result (λ copy. copy ≡ condition.now) }
    ensures room { condition.now ≡ None → IsOk result }
{
    match condition {
        Some(condition) => {
            let alternatives = alternatives_copied(alloc, condition.alternatives.as_slice())?;
            Ok(Some(Condition { alternatives }))
        }
        None => Ok(None),
    }
}

impl PluralRules {
    /// Equal rules: of those of English, `i = 1 and v = 0` for `one`, these once more.
    ///
    /// It allocates for each condition, so not for rules without any, as those of Japanese. `AllocError`: out of
    /// memory, only where there is one.
    pub fn try_clone(&self, alloc: Global) -> Result<Self, AllocError>
        ensures succeeds { self.now ≡ no_rules → IsOk result }
        ensures value { IfOk result (λ copy. copy ≡ self.now) }
    {
        let zero = copied(alloc, &self.zero)?;
        let one = copied(alloc, &self.one)?;
        let two = copied(alloc, &self.two)?;
        let few = copied(alloc, &self.few)?;
        let many = copied(alloc, &self.many)?;
        Ok(PluralRules {
            zero,
            one,
            two,
            few,
            many,
        })
    }
}
