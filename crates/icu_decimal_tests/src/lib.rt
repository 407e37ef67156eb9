//! Rows over the calls of `icu_decimal`: decimals' texts and their parts, texts read back, tables and errors.

#![tactic(auto)]

pub mod caller;
#[cfg(test)]
mod examples;
#[cfg(test)]
mod loading;
#[cfg(test)]
mod one_locale;
#[cfg(test)]
mod reading;
#[cfg(test)]
mod refusing;
#[cfg(test)]
mod shown;
pub mod tag_caller;
