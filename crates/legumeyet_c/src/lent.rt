//! What is shared: a content that stays for the rest of the run, which any number of threads read at once.

ghost use Rattle.std.specs.Prelude.{◌≡◌, Option, Some, None, is_some, true};
ghost use Rattle.legumeyet_c.specs.declared.content.Content.{Content};

use crate::content::Content;
use std::marker::Model;

/// A pointer to a content that stays for the rest of the run, or to nothing. What it shows it does not own.
#[repr(C)]
#[derive(Drop)]
pub struct SharedPointer {
    at: *const (),
    pub ghost value: { Option Content },
}

impl Model for SharedPointer {
    ghost use Rattle.legumeyet_c.specs.Lent.{lent};
    ghost use Rattle.legumeyet_c.specs.contracts.content.Content.{the_row};

    ghost also_owns = { λ l. lent the_row l.at l.value };
}

impl SharedPointer {
    // To nothing.
    fn empty() -> SharedPointer
        ensures { result.value ≡ None }
    {
        SharedPointer {
            at: std::ptr::null(),
        }
    }

    // To a content.
    fn to(content: &'static Content) -> SharedPointer
        ensures { result.value ≡ Some content.now }
    {
        SharedPointer {
            at: content as *const Content as *const (),
        }
    }

    // The content.
    fn get(&self) -> &Content
        requires { is_some self.now.value ≡ true }
        ensures { self.now.value ≡ Some result.now }
    {
        unsafe { &*(self.at as *const Content) }
    }
}

/// A shared handle, open or closed: the calls that only read it take it by `&`. Zeroed memory is a closed one.
#[repr(C)]
#[derive(Drop)]
pub struct SharedHandle {
    lent: SharedPointer,
    is_open: bool,
    ghost told: { is_open ≡ is_some lent.value },
}

impl SharedHandle {
    ghost use Rattle.legumeyet_c.specs.Opened.{opened};

    // A closed one.
    pub(crate) fn closed() -> SharedHandle
        ensures { result.lent.value ≡ None }
    {
        SharedHandle {
            lent: SharedPointer::empty(),
            is_open: false,
        }
    }

    // One that has a content.
    pub(crate) fn of(content: &'static Content) -> SharedHandle
        ensures { result.lent.value ≡ Some content.now }
    {
        SharedHandle {
            lent: SharedPointer::to(content),
            is_open: true,
        }
    }

    // The content, where it is open.
    pub(crate) fn content(&self) -> Option<&Content>
        ensures value { opened result ≡ self.now.lent.value }
    {
        if self.is_open {
            Some(self.lent.get())
        } else {
            None
        }
    }
}

unsafe impl Send for SharedPointer {}

unsafe impl Sync for SharedPointer {}
