//! All extensions of a locale.

ghost use Rattle.std.specs.Prelude.{◌≡◌, ◌↔◌, false, [], ℕ, List, IsOk, IfOk, IsTrue, OnOk, OnErr};
ghost use Rattle.icu_locale_core_extensions.specs.BodyView.{HasKey, is_other_part, put_extension};
ghost use Rattle.icu_locale_core_extensions.specs.ExtensionsValue.{nothing, only_unicode};

use crate::body::Part;
use crate::other::{Other, put_other};
use crate::transform::Transform;
use crate::unicode::Unicode;
use icu_locale_core_subtag_lists::Private;
use std::alloc::{AllocError, Global};
use std::marker::Model;

/// The extensions of a locale: `u`, `t`, the private subtags, and all others in the order held. Those of
/// `en-a-foo-u-nu-thai` are `a-foo` and `u-nu-thai`.
#[derive(Drop)]
pub struct Extensions {
    /// The extension `u`.
    pub unicode: Unicode,
    /// The extension `t`.
    pub transform: Transform,
    /// The private subtags.
    pub private: Private,
    /// All others; a reader lists them in byte order of their singletons.
    pub other: Vec<Other>,
}

impl Model for Extensions {
    ghost use Rattle.icu_locale_core_extensions.specs.ExtensionsValue.{ExtensionsValue};

    ghost Value = { ExtensionsValue };

    ghost view = { λ e. record {
      blocks = record { unicode = e.unicode; transform = e.transform; others = e.other.items };
      own = e.private;
    } };
}

// The same extensions, in the same order.
fn copied(alloc: Global, others: &[Other]) -> Result<Vec<Other>, AllocError>
    ensures succeeds { others.now ≡ [] → IsOk result }
    ensures items { IfOk result (λ copy. copy.items ≡ others.now) }
{
    let mut copy = Vec::new(alloc);
    for other in others {
        let next = other.try_clone()?;
        let Ok(()) = copy.push(next) else {
            return Err(AllocError);
        };
    }
    Ok(copy)
}

impl Extensions {
    /// No extension: `is_empty` is true, and they print nothing. It does not allocate.
    pub fn new(alloc: Global) -> Self
        ensures { result ≡ nothing }
    {
        Extensions {
            unicode: Unicode::new(alloc),
            transform: Transform::new(alloc),
            private: Private::new(alloc),
            other: Vec::new(alloc),
        }
    }

    /// The extensions of only this `u`: of `u-nu-thai` they print `u-nu-thai`. It does not allocate.
    pub fn from_unicode(alloc: Global, unicode: Unicode) -> Self
        ensures { result ≡ only_unicode unicode }
    {
        let mut extensions = Self::new(alloc);
        extensions.unicode = unicode;
        extensions
    }

    /// Removes all extensions: of `a-foo-u-nu-thai` nothing is left, and they print nothing. It does not allocate.
    pub fn clear(&mut self)
        ensures { self.new ≡ nothing }
    {
        self.unicode.clear();
        self.transform.clear();
        self.private.clear();
        self.other.clear();
    }

    /// Whether there is no extension: true of those of `en`, and false of those of `en-x-a`.
    ///
    /// False also where another extension is there without a piece. It does not allocate.
    pub fn is_empty(&self) -> bool
        ensures { IsTrue result ↔ (self.now ≡ nothing) }
    {
        self.unicode.is_empty()
            && self.transform.is_empty()
            && self.private.is_empty()
            && self.other.is_empty()
    }

    /// A copy: of `a-foo-u-nu-thai` it is `a-foo-u-nu-thai`. `AllocError`: out of memory. It allocates only where there
    /// is an extension.
    pub fn try_clone(&self) -> Result<Self, AllocError>
        ensures succeeds { self.now ≡ nothing → IsOk result }
        ensures value { IfOk result (λ extensions. extensions ≡ self.now) }
    {
        let unicode = self.unicode.try_clone()?;
        let transform = self.transform.try_clone()?;
        let private = self.private.try_clone()?;
        let other = copied(*self.other.allocator(), self.other.as_slice())?;
        Ok(Extensions {
            unicode,
            transform,
            private,
            other,
        })
    }
}

/// Adds an extension that was read. `AllocError`: out of memory; then nothing is added. `u` and `t` do not allocate.
pub fn put_part(extensions: &mut Extensions, part: Part) -> Result<(), AllocError>
    ensures ok { OnOk result
        ((key : List ℕ) → HasKey key part → extensions.new ≡ put_extension key part extensions.old) }
    ensures err { OnErr result (extensions.new ≡ extensions.old) }
    ensures room { is_other_part part ≡ false → IsOk result }
{
    match part {
        Part::Unicode(unicode) => {
            extensions.unicode = unicode;
            Ok(())
        }
        Part::Transform(transform) => {
            extensions.transform = transform;
            Ok(())
        }
        Part::Other(other) => put_other(&mut extensions.other, other),
    }
}
