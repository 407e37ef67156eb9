//! Parents of locales: which locale is asked for where one has no table.
//!
//! Under the parents `en-AU` of `en-001` and `en-001` of `en`, the chain of `en-AU` is `en-AU`, `en-001`, `en`.

#![tactic(auto)]

pub mod laws;
mod parents;

pub use parents::{ParentFault, Parents};
