//! Laws of chains, whatever the step.

ghost use Rattle.std.specs.Prelude.{◌≡◌, ℕ, ◌≤◌, length, List, Option};
ghost use Rattle.icu_decimal_chains.specs.Chains.{Follows, walk};

/// Two chains of one start are the same chain: from 2 by the step down only 1, 0.
pub fn one_chain<T>()
    ensures { (next : T → Option T) (start : T) (xs ys : List T) → Follows next start xs → Follows next start ys
        → xs ≡ ys }
{}

/// A walk of at least as many steps as a chain has is the chain: of nine steps down from 2 it is 1, 0.
pub fn walk_is_chain<T>()
    ensures { (next : T → Option T) (n : ℕ) (start : T) (xs : List T) → Follows next start xs → length xs ≤ n
        → walk next n start ≡ xs }
{}
