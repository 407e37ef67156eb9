//! A file system for rows.
use std::alloc::Allocator;
use std::fs::{Metadata, OpenFile, OpenOptions};
use std::io;
use std::io::{Read, Seek, SeekFrom, Write};
use std::rt::Files;

/// A file system that has the same thing under every path: `nothing`, a `whole` file with a text, or one that is
/// `broken` off after it.
#[derive(Clone, Copy)]
pub struct Shelf<'a> {
    pub kind: &'a str,
    pub text: &'a [u8],
}

/// An opened file, which may fail after its last byte. It takes no byte, and counts its flushes.
#[derive(Drop)]
pub struct Page<'a> {
    pub rest: &'a [u8],
    pub fault: Option<io::ErrorKind>,
    pub flushes: u64,
}

impl Page<'_> {
    // What a call returns that may fail.
    fn end(&self) -> io::Result<()> {
        match self.fault {
            Some(kind) => Err(io::Error::from(kind)),
            None => Ok(()),
        }
    }
}

fn unsupported() -> io::Error {
    io::Error::from(io::ErrorKind::Unsupported)
}

impl<'a> Read for Page<'a> {
    fn read(&mut self, buffer: &mut [u8]) -> io::Result<usize> {
        if self.rest.is_empty() {
            self.end()?;
        }
        let count = buffer.len().min(self.rest.len());
        let (given, rest) = self.rest.split_at(count);
        let front = &mut buffer[..count];
        front.copy_from_slice(given);
        self.rest = rest;
        Ok(count)
    }
}

impl<'a> Write for Page<'a> {
    fn write(&mut self, _piece: &[u8]) -> io::Result<usize> {
        Ok(0)
    }

    fn flush(&mut self) -> io::Result<()> {
        self.flushes = self.flushes.saturating_add(1);
        self.end()
    }
}

impl<'a> Seek for Page<'a> {
    fn seek(&mut self, _to: SeekFrom) -> io::Result<u64> {
        Err(unsupported())
    }
}

impl<'a> OpenFile for Page<'a> {
    fn metadata(&self) -> io::Result<Metadata> {
        Err(unsupported())
    }

    fn set_len(&self, _size: u64) -> io::Result<()> {
        Err(unsupported())
    }

    fn sync_all(&self) -> io::Result<()> {
        Err(unsupported())
    }

    fn sync_data(&self) -> io::Result<()> {
        Err(unsupported())
    }
}

impl<'a> Files for Shelf<'a> {
    type File = Page<'a>;

    type Dir = Page<'a>;

    fn open_file(&self, how: &OpenOptions, _path: &str) -> io::Result<Page<'a>> {
        how.check()?;
        let fault = match self.kind {
            "whole" => None,
            "broken" => Some(io::ErrorKind::Other),
            _ => return Err(io::Error::from(io::ErrorKind::NotFound)),
        };
        Ok(Page {
            rest: self.text,
            fault,
            flushes: 0,
        })
    }

    fn open_dir(&self, _path: &str) -> io::Result<Page<'a>> {
        Err(unsupported())
    }

    fn metadata(&self, _path: &str) -> io::Result<Metadata> {
        Err(unsupported())
    }

    fn symlink_metadata(&self, _path: &str) -> io::Result<Metadata> {
        Err(unsupported())
    }

    fn copy(&self, _from: &str, _to: &str) -> io::Result<u64> {
        Err(unsupported())
    }

    fn rename(&self, _from: &str, _to: &str) -> io::Result<()> {
        Err(unsupported())
    }

    fn remove_file(&self, _path: &str) -> io::Result<()> {
        Err(unsupported())
    }

    fn create_dir(&self, _path: &str) -> io::Result<()> {
        Err(unsupported())
    }

    fn remove_dir(&self, _path: &str) -> io::Result<()> {
        Err(unsupported())
    }

    fn remove_dir_all<B: Allocator>(&self, _alloc: B, _path: &str) -> io::Result<()> {
        Err(unsupported())
    }
}
