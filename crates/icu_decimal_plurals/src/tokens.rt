//! The tokens of a text.

ghost use Rattle.std.specs.Prelude.{◌≡◌, ◌≤◌, length, Some, None, IfOk, IsErrOf, true};
ghost use Rattle.std.specs.Char.{digit_value, is_ascii_digit};
ghost use Rattle.std.specs.List.{list_all};
ghost use Rattle.std.specs.Str.Parse.{digits_value};
ghost use Rattle.icu_decimal_plurals.specs.Tokens.{sign_of, operand_of, number_of, token_of, tokens_of};

use crate::error::ConditionError;
use crate::operand::Operand;
use crate::piece::{first_piece, is_blank};
use crate::token::Token;
use std::alloc::Global;

// The word or the sign that a piece is.
fn sign_of(piece: &[u8]) -> Option<Token>
    ensures { result ≡ sign_of piece.now }
{
    if piece == b"and".as_slice() {
        Some(Token::And)
    } else if piece == b"or".as_slice() {
        Some(Token::Or)
    } else if piece == b"%".as_slice() {
        Some(Token::Percent)
    } else if piece == b"=".as_slice() {
        Some(Token::Equals)
    } else if piece == b"!=".as_slice() {
        Some(Token::NotEquals)
    } else if piece == b",".as_slice() {
        Some(Token::Comma)
    } else if piece == b"..".as_slice() {
        Some(Token::Dots)
    } else {
        None
    }
}

// The operand that a piece names.
fn operand_of(piece: &[u8]) -> Option<Operand>
    ensures { result ≡ operand_of piece.now }
{
    if piece == b"n".as_slice() {
        Some(Operand::N)
    } else if piece == b"i".as_slice() {
        Some(Operand::I)
    } else if piece == b"v".as_slice() {
        Some(Operand::V)
    } else if piece == b"w".as_slice() {
        Some(Operand::W)
    } else if piece == b"f".as_slice() {
        Some(Operand::F)
    } else if piece == b"t".as_slice() {
        Some(Operand::T)
    } else if piece == b"c".as_slice() {
        Some(Operand::C)
    } else if piece == b"e".as_slice() {
        Some(Operand::C)
    } else {
        None
    }
}

// Whether each byte is a digit.
fn are_digits(piece: &[u8]) -> bool
    ensures { result ≡ list_all is_ascii_digit piece.now }
{
    piece.iter().all(|byte| byte.is_ascii_digit())
}

// The value of a digit.
#[tactic(auto, using(crate::proofs::NumberLemmas::digit_is))]
fn digit_of(digit: u8) -> u8
    requires { is_ascii_digit digit ≡ true }
    ensures { result ≡ digit_value digit }
{
    digit - b'0'
}

// The number that digits write.
#[tactic(auto, using(crate::proofs::NumberLemmas::digit_in, crate::proofs::NumberLemmas::next_value, crate::proofs::NumberLemmas::next_fits))]
fn value_of(digits: &[u8]) -> u64
    requires digits { list_all is_ascii_digit digits.now ≡ true }
    requires short { length digits.now ≤ 18 }
    ensures { result ≡ digits_value 10 digits.now }
{
    let mut number = 0u64;
    for digit in digits {
        number = number * 10 + u64::from(digit_of(*digit));
    }
    number
}

// The number that a piece writes.
fn number_of(piece: &[u8]) -> Option<u64>
    ensures { result ≡ number_of piece.now }
{
    if piece.is_empty() || 18 < piece.len() || !are_digits(piece) {
        return None;
    }
    Some(value_of(piece))
}

// The token that a piece is.
fn token_of(piece: &[u8]) -> Option<Token>
    ensures { result ≡ token_of piece.now }
{
    if let Some(sign) = sign_of(piece) {
        Some(sign)
    } else if let Some(operand) = operand_of(piece) {
        Some(Token::Name(operand))
    } else {
        number_of(piece).map(Token::Whole)
    }
}

/// The tokens of a text. `Syntax`: a piece of it is no token.
pub fn tokens(alloc: Global, text: &[u8]) -> Result<Vec<Token>, ConditionError>
    ensures ok { IfOk result (λ all. tokens_of text.now ≡ Some all.items) }
    ensures syntax { IsErrOf result ConditionError.Syntax → tokens_of text.now ≡ None }
{
    let mut all = Vec::new(alloc);
    let mut rest = text;
    while !rest.is_empty() {
        let (piece, behind) = first_piece(rest);
        rest = behind;
        if is_blank(piece) {
            continue;
        }
        let Some(token) = token_of(piece) else {
            return Err(ConditionError::Syntax);
        };
        if all.push(token).is_err() {
            return Err(ConditionError::Memory);
        }
    }
    Ok(all)
}
