//! Singletons, and those that have come.

ghost use Rattle.std.specs.Prelude.{◌≡◌, ◌<◌, [], ◌∷◌, ◌++◌, length, IsOk, OnOk};
ghost use Rattle.icu_locale_core_grammar.specs.Subtags.{is_private, lower};
ghost use Rattle.icu_locale_core_grammar.specs.Collections.{contains_text};
ghost use Rattle.icu_locale_core_extensions.specs.BodyView.{body_key};
ghost use Rattle.icu_locale_core_locale.specs.StageView.{singletons};

use icu_locale_core_extensions::BodyStage;
use icu_locale_core_subtags::is_letter;
use smallvec::SmallVec;
use std::alloc::{AllocError, Global};
use std::marker::Model;

/// The singletons that have come, in lower case: up to 36 do not allocate, and there are no more.
#[derive(Drop)]
pub struct Singletons {
    kept: SmallVec<u8, 36>,
}

impl Model for Singletons {
    ghost use Rattle.std.specs.Prelude.{ℕ, List, ◌≤◌};

    ghost Value = { List ℕ };

    ghost view = { λ s. s.kept.items };

    ghost invariant = { λ s. 36 ≤ s.kept.capacity };
}

impl Singletons {
    // None yet.
    pub(crate) fn new(alloc: Global) -> Self
        ensures { result ≡ [] }
    {
        Singletons {
            kept: SmallVec::new(alloc),
        }
    }

    // Adds one after the others; below 36 it does not allocate.
    pub(crate) fn push(&mut self, singleton: u8) -> Result<(), AllocError>
        ensures ok { OnOk result (self.new ≡ self.old ++ singleton ∷ []) }
        ensures room { length self.old < 36 → IsOk result }
    {
        match self.kept.push(singleton) {
            Ok(()) => Ok(()),
            Err(_) => Err(AllocError),
        }
    }

    // The singletons, in the order in which they came.
    pub(crate) fn as_slice(&self) -> &[u8]
        ensures { result.now ≡ self.now }
    {
        self.kept.as_slice()
    }
}

// Whether the piece is `x`, in either case.
pub(crate) fn opens_private(piece: &[u8]) -> bool
    ensures { result ≡ is_private piece.now }
{
    is_letter(piece, b'x')
}

// Whether the piece is one of these singletons, in either case.
pub(crate) fn has_come(seen: &[u8], piece: &[u8]) -> bool
    ensures { result ≡ contains_text (lower piece.now) (singletons seen.now) }
{
    match piece {
        [only] => seen.contains(&only.to_ascii_lowercase()),
        _ => false,
    }
}

// The singleton of an extension that is read, in lower case.
pub(crate) fn key_of(body: &BodyStage) -> u8
    ensures { result ∷ [] ≡ body_key body.now }
{
    match body {
        BodyStage::InUnicode(_) => b'u',
        BodyStage::InTransform(_) => b't',
        BodyStage::InOther(other) => other.get_ext_byte(),
    }
}
