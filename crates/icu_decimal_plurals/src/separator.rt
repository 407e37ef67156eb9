//! What separates the parts of a condition.

ghost use Rattle.std.specs.Prelude.{◌≡◌};

use crate::token::Token;

/// What separates parts of one kind.
#[derive(Clone, Copy, Debug)]
pub enum Separator {
    /// `or`, between alternatives.
    Or,
    /// `and`, between relations.
    And,
    /// `,`, between intervals.
    Comma,
}

impl Separator {
    ghost use Rattle.icu_decimal_plurals.specs.ConditionGrammar.{separates};

    /// Whether the token is this separator.
    pub fn is(self, token: Token) -> bool
        ensures { result ≡ separates self token }
    {
        match (self, token) {
            (Separator::Or, Token::Or) => true,
            (Separator::And, Token::And) => true,
            (Separator::Comma, Token::Comma) => true,
            _ => false,
        }
    }
}
