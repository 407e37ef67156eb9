//! JSON texts as the arrays of a book.

mod form;
mod more;
mod parents;
mod parts;
mod units;
mod value;

pub use form::Arrays;
pub use more::{More, MoreArrays, more_in, no_signs};
pub use parents::parents_in;
pub use parts::{BookArrays, book_arrays_of};
pub use units::units_in;
pub use value::value_of;
