//! The world's book, as a text for each of its arrays, and the tags of its locales.
//!
//! ```
//! for entry in world_book::symbols().lines() {              // ["af","","latn","-","","+","",","," ",3,3,1]
//!     ..
//! }
//! ```

#![tactic(auto)]

mod tags;
pub mod world_book;
mod world_locales;

pub use tags::world_tags;
pub use world_locales::WORLD_LOCALES;
