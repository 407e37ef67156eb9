//! Patterns and tables as JSON.

mod slots;
mod table;
mod types;
mod written;
