//! What the words of the command `legumeyet` ask for: its options, the tag of a locale's name, the format of numbers, and what
//! is written for a refused one.

#![tactic(auto)]

mod categories;
mod digits;
mod fault;
mod help;
mod invalid;
mod kept_sayer;
pub mod laws;
mod locale_name;
mod number_forms;
mod number_words;
mod options;
mod saying;
mod significant;

pub use categories::{CategorySayer, SayerRules};
pub use digits::DigitWords;
pub use fault::OptionFault;
pub use invalid::Invalid;
pub use kept_sayer::KeptSayer;
pub use locale_name::tag_of_name;
pub use number_words::{NumberWords, NumbersAsked};
pub use options::command;
pub use saying::{NotSaid, Sayer};
