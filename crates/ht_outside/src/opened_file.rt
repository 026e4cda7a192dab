//! A file that is read from its first byte on.
ghost use Rattle.std.specs.Prelude.{◌≡◌, ◌≤◌, ◌+◌, ◌-◌, ◌^◌, ◌↔◌, min, length, IfOk, IsTrue};
ghost use Rattle.std.specs.Io.KnownBytes.{ReadConsumes};

use std::alloc::{AllocError, Global};
use std::fs::OpenFile;
use std::io;
use std::io::{ErrorKind, Read};
use trace_types::Text;

/// An open file, and how far it was read.
#[derive(Drop)]
pub(crate) struct OpenedFile<F> {
    dir: Text,
    name: Text,
    file: F,
    // the byte that comes next
    at: u64,
    // how many bytes it had when it was opened
    size: u64,
}

impl<F: Read + OpenFile + Drop> OpenedFile<F> {
    /// A file of this folder and name that was just opened.
    pub(crate) fn new(alloc: Global, file: F, dir: &[u8], name: &[u8]) -> io::Result<OpenedFile<F>>
        ensures { IfOk result (λ opened. (opened.dir ≡ dir.now) × (opened.name ≡ name.now) × (opened.at ≡ 0)) }
    {
        let size = file.metadata()?.len();
        Ok(OpenedFile {
            dir: Text::from_bytes(alloc, dir).map_err(|_| AllocError)?,
            name: Text::from_bytes(alloc, name).map_err(|_| AllocError)?,
            file,
            at: 0,
            size,
        })
    }

    /// Whether it is the file of this folder and name, and this byte comes next.
    pub(crate) fn stands_at(&self, dir: &[u8], name: &[u8], at: u64) -> bool
        ensures { IsTrue result ↔ ((self.now.dir ≡ dir.now) × (self.now.name ≡ name.now) × (self.now.at ≡ at)) }
    {
        self.dir.as_bytes() == dir && self.name.as_bytes() == name && self.at == at
    }

    /// Reads the bytes that come next, none at the end. An end before the size at the opening is an
    /// error.
    pub(crate) fn read(&mut self, buf: &mut [u8]) -> io::Result<usize>
        ensures bound { IfOk result (λ n. n ≤ length buf.new) }
        ensures bytes { ReadConsumes (F.remaining self.old.file) (F.remaining self.new.file) result buf.new }
        ensures whole { IfOk result (λ n. n ≡ 0 → self.old.size ≤ self.old.at) }
        ensures moves { IfOk result (λ n. self.new.at ≡ min (self.old.at + n) (2 ^ 64 - 1)) }
    {
        let count = self.file.read(buf)?;
        if count == 0 && self.at < self.size {
            return Err(io::Error::from(ErrorKind::UnexpectedEof));
        }
        self.at = self.at.saturating_add(count as u64);
        Ok(count)
    }
}
