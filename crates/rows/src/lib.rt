//! What the programs of rows share: a table that is repeated with its answers, the escapes in its fields, numbers,
//! answers that are written and dropped, and a sink with little room.

#![tactic(auto)]

mod answers;
mod bounded;
mod escapes;
mod fields;
mod stop;
mod table;

pub use answers::{
    filled, push, put, put_after, put_debug, put_last, put_last_written, put_text, put_written,
    refused, refused_debug,
};
pub use bounded::{Bounded, put_held, put_in_room};
pub use escapes::{escaped, unescaped, units};
pub use fields::{number_of, split_word};
pub use stop::Stop;
pub use table::{Table, print_answers};
