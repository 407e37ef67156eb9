//! Chains: what follows a start by a step taken again and again, up to where no step is left.
//!
//! A start has at most one chain, and a walk of at least as many steps as the chain has is the chain.
#![tactic(auto)]

pub mod laws;
