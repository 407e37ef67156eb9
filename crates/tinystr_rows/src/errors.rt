//! The number and the words of each error.

use rows::{Stop, number_of};
use std::fmt::Display;
use tinystr::{ParseError, UleError};

pub fn answer(error: &str, counts: &[&str], out: &mut String) -> Result<(), Stop> {
    match counts {
        [] => answer_plain(error, out),
        [len] if error == "UleError::Length" => {
            let error = UleError::Length(number_of(len)?);
            put_error(error.number(), &error, out)
        }
        [max, len] if error == "ParseError::TooLong" => {
            let max = number_of(max)?;
            let len = number_of(len)?;
            let error = ParseError::TooLong { max, len };
            put_error(error.number(), &error, out)
        }
        _ => Err(Stop::Unknown),
    }
}

// The answer of an error that holds no count.
fn answer_plain(error: &str, out: &mut String) -> Result<(), Stop> {
    match error {
        "ParseError::ContainsNull" => {
            put_error(
                ParseError::ContainsNull.number(),
                &ParseError::ContainsNull,
                out,
            )
        }
        "ParseError::NonAscii" => {
            put_error(ParseError::NonAscii.number(), &ParseError::NonAscii, out)
        }
        "UleError::Parse" => put_error(UleError::Parse.number(), &UleError::Parse, out),
        _ => Err(Stop::Unknown),
    }
}

fn put_error<E: Display>(number: u8, error: &E, out: &mut String) -> Result<(), Stop> {
    write!(out, "{number} \"{error}\"")?;
    Ok(())
}
