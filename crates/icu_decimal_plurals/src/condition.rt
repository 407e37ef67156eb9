//! Conditions as data, and whether they hold.

ghost use Rattle.std.specs.Prelude.{◌≡◌};

use crate::interval::Interval;
use crate::operand::Operand;
use crate::operands::PluralOperands;
use std::marker::Model;

/// What one operand is asked for: `n % 10 = 2..4`.
#[derive(Debug, Drop)]
pub struct Relation {
    /// The operand.
    pub operand: Operand,
    /// The number above 0 that the operand is divided by, if any: what is left of it is asked for.
    pub modulus: Option<u64>,
    /// Whether the sign is `!=`.
    pub is_denied: bool,
    /// The numbers asked for.
    pub intervals: Vec<Interval>,
}

impl Model for Relation {
    ghost use Rattle.icu_decimal_plurals.specs.Conditions.{RelationData};

    ghost Value = { RelationData };

    ghost view = { λ r. record {
      operand = r.operand;
      modulus = r.modulus;
      is_denied = r.is_denied;
      intervals = r.intervals.items;
    } };
}

impl Relation {
    ghost use Rattle.icu_decimal_plurals.specs.Conditions.{left_by, lists, relation_holds};

    // What the division leaves of a number: without a division the number.
    fn left_by(&self, number: u64) -> u64
        ensures { result ≡ left_by self.now.modulus number }
    {
        match self.modulus {
            Some(modulus) => number.checked_rem(modulus).unwrap_or(number),
            None => number,
        }
    }

    // Whether a number is one of those asked for.
    fn lists(&self, number: u64) -> bool
        ensures { result ≡ lists self.now.intervals number }
    {
        self.intervals
            .iter()
            .any(|interval| interval.contains(number))
    }

    /// Whether the relation holds for a number of these operands.
    pub fn holds(&self, operands: &PluralOperands) -> bool
        ensures { result ≡ relation_holds operands.now self.now }
    {
        let has = match operands.value_of(self.operand) {
            Some(number) => self.lists(self.left_by(number)),
            None => false,
        };
        has != self.is_denied
    }
}

/// Relations that are joined by `and`.
#[derive(Debug, Drop)]
pub struct AndCondition {
    /// The relations.
    pub relations: Vec<Relation>,
}

impl Model for AndCondition {
    ghost use Rattle.std.specs.Prelude.{List};
    ghost use Rattle.icu_decimal_plurals.specs.Conditions.{RelationData};

    ghost Value = { List RelationData };

    ghost view = { λ a. a.relations.items };
}

impl AndCondition {
    ghost use Rattle.icu_decimal_plurals.specs.Conditions.{all_hold};

    /// Whether all its relations hold.
    pub fn holds(&self, operands: &PluralOperands) -> bool
        ensures { result ≡ all_hold operands.now self.now }
    {
        self.relations
            .iter()
            .all(|relation| relation.holds(operands))
    }
}

/// A condition: alternatives that are joined by `or`.
#[derive(Debug, Drop)]
pub struct Condition {
    /// The alternatives.
    pub alternatives: Vec<AndCondition>,
}

impl Model for Condition {
    ghost use Rattle.icu_decimal_plurals.specs.Conditions.{ConditionData};

    ghost Value = { ConditionData };

    ghost view = { λ c. c.alternatives.items };
}

impl Condition {
    ghost use Rattle.icu_decimal_plurals.specs.Conditions.{condition_holds};

    /// Whether one of its alternatives holds.
    pub fn holds(&self, operands: &PluralOperands) -> bool
        ensures { result ≡ condition_holds operands.now self.now }
    {
        self.alternatives
            .iter()
            .any(|alternative| alternative.holds(operands))
    }
}
