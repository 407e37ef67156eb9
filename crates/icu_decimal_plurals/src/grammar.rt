//! Conditions, read from tokens.

ghost use Rattle.std.specs.Prelude.{◌≡◌, Some, None, IfOk, IsErrOf};
ghost use Rattle.icu_decimal_plurals.specs.ConditionGrammar.{interval_of, intervals_of, relation_with, divided_with, relation_of, relations_of, condition_of};

use crate::condition::{AndCondition, Condition, Relation};
use crate::cut::cut;
use crate::error::ConditionError;
use crate::interval::Interval;
use crate::operand::Operand;
use crate::separator::Separator;
use crate::token::Token;
use std::alloc::Global;

// A number or two with dots between.
fn read_interval(tokens: &[Token]) -> Option<Interval>
    ensures { result ≡ interval_of tokens.now }
{
    match tokens {
        [Token::Whole(number)] => Some(Interval {
            low: *number,
            high: *number,
        }),
        [Token::Whole(low), Token::Dots, Token::Whole(high)] => {
            if *low <= *high {
                Some(Interval {
                    low: *low,
                    high: *high,
                })
            } else {
                None
            }
        }
        _ => None,
    }
}

// Intervals with commas between.
fn read_intervals(alloc: Global, tokens: &[Token]) -> Result<Vec<Interval>, ConditionError>
    ensures ok { IfOk result (λ intervals. intervals_of tokens.now ≡ Some intervals.items) }
    ensures syntax { IsErrOf result ConditionError.Syntax → intervals_of tokens.now ≡ None }
{
    let mut all = Vec::new(alloc);
    let mut rest = tokens;
    loop {
        let (part, behind) = cut(rest, Separator::Comma);
        let Some(interval) = read_interval(part) else {
            return Err(ConditionError::Syntax);
        };
        if all.push(interval).is_err() {
            return Err(ConditionError::Memory);
        }
        match behind {
            None => return Ok(all),
            Some(left) => rest = left,
        }
    }
}

// A relation of these parts, where the tokens are its intervals.
fn relation_with(
    alloc: Global,
    operand: Operand,
    modulus: Option<u64>,
    is_denied: bool,
    tokens: &[Token],
) -> Result<Relation, ConditionError>
    ensures ok { IfOk result (λ relation. relation_with operand modulus is_denied tokens.now ≡ Some relation) }
    ensures syntax { IsErrOf result ConditionError.Syntax → relation_with operand modulus is_denied tokens.now ≡ None }
{
    let intervals = read_intervals(alloc, tokens)?;
    Ok(Relation {
        operand,
        modulus,
        is_denied,
        intervals,
    })
}

// The same with a division, which 0 can't make.
fn divided_with(
    alloc: Global,
    operand: Operand,
    modulus: u64,
    is_denied: bool,
    tokens: &[Token],
) -> Result<Relation, ConditionError>
    ensures ok { IfOk result (λ relation. divided_with operand modulus is_denied tokens.now ≡ Some relation) }
    ensures syntax { IsErrOf result ConditionError.Syntax → divided_with operand modulus is_denied tokens.now ≡ None }
{
    if modulus == 0 {
        return Err(ConditionError::Syntax);
    }
    relation_with(alloc, operand, Some(modulus), is_denied, tokens)
}

// An operand, a division or none, a sign and intervals.
fn read_relation(alloc: Global, tokens: &[Token]) -> Result<Relation, ConditionError>
    ensures ok { IfOk result (λ relation. relation_of tokens.now ≡ Some relation) }
    ensures syntax { IsErrOf result ConditionError.Syntax → relation_of tokens.now ≡ None }
{
    match tokens {
        [Token::Name(operand), Token::Equals, rest @ ..] => {
            relation_with(alloc, *operand, None, false, rest)
        }
        [Token::Name(operand), Token::NotEquals, rest @ ..] => {
            relation_with(alloc, *operand, None, true, rest)
        }
        [
            Token::Name(operand),
            Token::Percent,
            Token::Whole(modulus),
            Token::Equals,
            rest @ ..,
        ] => { divided_with(alloc, *operand, *modulus, false, rest) }
        [
            Token::Name(operand),
            Token::Percent,
            Token::Whole(modulus),
            Token::NotEquals,
            rest @ ..,
        ] => { divided_with(alloc, *operand, *modulus, true, rest) }
        _ => Err(ConditionError::Syntax),
    }
}

// Relations with `and` between.
fn read_relations(alloc: Global, tokens: &[Token]) -> Result<AndCondition, ConditionError>
    ensures ok { IfOk result (λ relations. relations_of tokens.now ≡ Some relations) }
    ensures syntax { IsErrOf result ConditionError.Syntax → relations_of tokens.now ≡ None }
{
    let mut relations = Vec::new(alloc);
    let mut rest = tokens;
    loop {
        let (part, behind) = cut(rest, Separator::And);
        let relation = read_relation(alloc, part)?;
        if relations.push(relation).is_err() {
            return Err(ConditionError::Memory);
        }
        match behind {
            None => return Ok(AndCondition { relations }),
            Some(left) => rest = left,
        }
    }
}

/// A condition of these tokens. `Syntax`: they are none.
pub fn read_condition(alloc: Global, tokens: &[Token]) -> Result<Condition, ConditionError>
    ensures ok { IfOk result (λ condition. condition_of tokens.now ≡ Some condition) }
    ensures syntax { IsErrOf result ConditionError.Syntax → condition_of tokens.now ≡ None }
{
    let mut alternatives = Vec::new(alloc);
    let mut rest = tokens;
    loop {
        let (part, behind) = cut(rest, Separator::Or);
        let alternative = read_relations(alloc, part)?;
        if alternatives.push(alternative).is_err() {
            return Err(ConditionError::Memory);
        }
        match behind {
            None => return Ok(Condition { alternatives }),
            Some(left) => rest = left,
        }
    }
}
