//! The typed keywords, one file a subject.

pub(crate) mod collation;
pub(crate) mod currency;
pub(crate) mod emoji;
pub(crate) mod first_day;
pub(crate) mod line_break;
pub(crate) mod measurement_system;
pub(crate) mod numbering_system;
pub(crate) mod subdivision_keyword;
