//! What is kept from line to line: things that are made for keys, up to a capacity, the most recently used.
//!
//! A [`FormatterCache`] asks a [`Maker`] for what it has not kept, and counts how often something was made:
//!
//! ```text
//! let mut cache = FormatterCache::new(alloc, 16)?;
//! if cache.keep(&maker, &key)? {
//!     let formatter = cache.latest();      // Some of what the maker makes for the key
//! }
//! ```

#![tactic(auto)]

mod cache_key;
mod formatter_cache;
mod hashed;
mod key_pair;
mod key_reader;
mod last_key;
pub mod laws;
mod maker;
mod promoting;
mod read_keys;

pub use cache_key::CacheKey;
pub use formatter_cache::FormatterCache;
pub use hashed::Hashed;
pub use key_reader::KeyReader;
pub use maker::Maker;
pub use read_keys::ReadKeys;
