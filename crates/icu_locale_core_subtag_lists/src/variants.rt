//! The variants of a language identifier.

ghost use Rattle.std.specs.Prelude.{◌≡◌, [], ◌∷◌, IfOk};

use crate::subtag_set::SubtagSet;
use icu_locale_core_subtags::{Variant, VariantRule};
use std::alloc::{AllocError, Global};

/// The variants of a language identifier: none of them twice, in byte order, as `1996`, `fonipa`.
pub type Variants = SubtagSet<VariantRule>;

impl SubtagSet<VariantRule> {
    /// The set of only this variant: of `FonIPA` it has `fonipa`. It allocates. `AllocError`: out of memory.
    pub fn from_variant(alloc: Global, variant: Variant) -> Result<Variants, AllocError>
        ensures { IfOk result (λ set. set ≡ variant ∷ []) }
    {
        let mut set = Variants::new(alloc);
        set.push(variant)?;
        Ok(set)
    }
}
