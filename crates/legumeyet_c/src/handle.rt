//! What each handle of C has open: a pointer to its content, or nothing.

ghost use Rattle.std.specs.Borrow.{sem};
ghost use Rattle.std.specs.Prelude.{◌≡◌, Option, Some, None, option_map, is_some, true};
ghost use Rattle.legumeyet_c.specs.declared.content.Content.{Content};

use crate::content::Content;
use crate::unboxed::Unboxed;
use std::alloc::Global;
use std::marker::Model;

/// A pointer to a content, which it owns, or to nothing.
#[repr(C)]
pub struct Pointer {
    at: *mut (),
    pub ghost value: { Option Content },
}

impl Model for Pointer {
    ghost use Rattle.legumeyet_c.specs.Owned.{owned};
    ghost use Rattle.legumeyet_c.specs.contracts.content.Content.{the_row};

    ghost also_owns = { λ p. owned the_row p.at p.value };
}

impl Pointer {
    ghost use Rattle.legumeyet_c.specs.Lending.{LendsContent};

    // To nothing.
    fn empty() -> Pointer
        ensures { result.value ≡ None }
    {
        Pointer {
            at: std::ptr::null_mut(),
        }
    }

    // To the content of a box.
    fn to(content: Unboxed<Content, Global>) -> Pointer
        ensures { result.value ≡ Some content.value }
    {
        let Unboxed { at, alloc: _ } = content;
        Pointer { at: at as *mut () }
    }

    // The content, for as long as the pointer is borrowed.
    pub(crate) fn get_mut(&mut self) -> &mut Content
        requires { is_some self.old.value ≡ true }
        ensures* ends { sem 𝓛 (LendsContent self.entry result) }
        ensures value { self.old.value ≡ Some result.now }
    {
        unsafe { &mut *(self.at as *mut Content) }
    }

    // The box again.
    fn into_unboxed(self, alloc: Global) -> Unboxed<Content, Global>
        requires { is_some self.value ≡ true }
        ensures { self.value ≡ Some result.value }
    {
        let Pointer { at } = self;
        Unboxed {
            at: at as *mut Content,
            alloc,
        }
    }

    // Drops a pointer to nothing.
    fn forget(self)
        requires { self.value ≡ None }
    {
        let Pointer { at: _ } = self;
    }
}

/// A handle, open or closed. Zeroed memory is a closed one.
#[repr(C)]
pub struct Handle {
    pub(crate) pointer: Pointer,
    pub(crate) is_open: bool,
    ghost told: { is_open ≡ is_some pointer.value },
}

// What a handle had open.
fn content_of(handle: Handle, alloc: Global) -> Option<Box<Content>>
    ensures { option_map (λ content. content.value) result ≡ handle.pointer.value }
{
    let Handle { pointer, is_open } = handle;
    if is_open {
        let content = pointer.into_unboxed(alloc);
        Some(content.shut())
    } else {
        pointer.forget();
        None
    }
}

impl Handle {
    ghost use Rattle.legumeyet_c.specs.Lending.{StaysOpened};
    ghost use Rattle.legumeyet_c.specs.Opened.{opened};

    // The content, where it is open, to be read for as long as the handle is borrowed, which stays as it is.
    pub(crate) fn content(&mut self) -> Option<&Content>
        ensures* same { sem 𝓛 (StaysOpened self.entry) }
        ensures value { opened result ≡ self.old.pointer.value }
    {
        if self.is_open {
            Some(self.pointer.get_mut())
        } else {
            None
        }
    }

    // Takes the content out, and leaves the handle closed.
    pub(crate) fn take(&mut self, alloc: Global) -> Option<Box<Content>>
        ensures value { option_map (λ content. content.value) result ≡ self.old.pointer.value }
        ensures closed { self.new.pointer.value ≡ None }
    {
        let closed = Handle {
            pointer: Pointer::empty(),
            is_open: false,
        };
        content_of(std::mem::replace(self, closed), alloc)
    }

    // Puts a content in, and drops what was there.
    pub(crate) fn put(&mut self, alloc: Global, content: Box<Content>)
        ensures { self.new.pointer.value ≡ Some content.value }
    {
        let opened = Handle {
            pointer: Pointer::to(Unboxed::open(content)),
            is_open: true,
        };
        drop(content_of(std::mem::replace(self, opened), alloc));
    }
}

unsafe impl Send for Pointer {}
