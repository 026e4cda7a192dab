//! A store over folders of the file system.
ghost use Rattle.std.specs.Prelude.{◌≡◌, ◌≢◌, ◌<◌, ◌≤◌, ◌↔◌, length, IfOk, IfErr, IsErr, IsSomeAnd, IsTrue, Ok, Some, None};
ghost use Rattle.std.specs.Fs.{file_type, IsFile};
ghost use Rattle.std.specs.IoError.{error_kind};
ghost use Rattle.ht_outside.specs.Faults.{HasRisen};
ghost use Rattle.ht_outside.specs.declared.store.StoreError.TheVariants.{Failed};

use crate::opened_file::OpenedFile;
use crate::{Store, StoreError};
use std::alloc::AllocError;
use std::fs::Metadata;
use std::io::ErrorKind;
use std::rt::Files;
use std::{fs, io};
use trace_types::Text;

/// Reads files below the folders that the words name. It tells nothing of their content. A folder
/// that isn't there has no names, and a file that is named by one word alone and isn't there has no
/// bytes. A file in a folder is read once the folder has listed it: one that isn't there is a fault.
///
/// A file is opened where its byte 0 is read and read from there on through one handle, without a
/// seek, so that a pipe can be read too. What is renamed over it meanwhile isn't seen. A read at
/// another byte than the one after the last read of that file is a fault, and so are a file that
/// ends before the size that it had when it was opened, a name that isn't UTF-8, an interrupted call
/// and every other error. The count of faults stands still at its greatest number.
#[derive(Drop)]
pub struct FolderStore<'a, R: Files> {
    rt: &'a R,
    faults: u64,
    opened: Option<OpenedFile<R::File>>,
}

impl<'a, R: Files> FolderStore<'a, R> {
    /// A store with no file open and no fault yet.
    pub fn new(rt: &'a R) -> FolderStore<'a, R>
        ensures { result.faults ≡ 0 }
    {
        FolderStore {
            rt,
            faults: 0,
            opened: None,
        }
    }

    /// How many calls have failed.
    pub fn faults(&self) -> u64
        ensures { result ≡ self.now.faults }
    {
        self.faults
    }
}

impl<R: Files + AllocGlobal + Clone + Drop> Store for FolderStore<'_, R> {
    ghost use Rattle.std.specs.Prelude.{None};

    ghost holds = { λ _. None };

    ghost faults = { λ s. s.faults };

    fn names(&mut self, dir: &[u8]) -> Result<Vec<Text>, StoreError> {
        match names_in(self.rt, dir) {
            Ok(names) => Ok(names),
            Err(error) => Err(failure(error, &mut self.faults)),
        }
    }

    fn read(
        &mut self,
        dir: &[u8],
        name: &[u8],
        at: u64,
        buf: &mut [u8],
    ) -> Result<usize, StoreError> {
        match read_part(self.rt, self.opened.take(), dir, name, at, buf) {
            Ok((count, opened)) => {
                self.opened = opened;
                Ok(count)
            }
            Err(error) => Err(failure(error, &mut self.faults)),
        }
    }
}

// What an error of the file system is to the caller; it counts unless it is lack of memory.
fn failure(error: io::Error, faults: &mut u64) -> StoreError
    ensures grows { faults.old ≤ faults.new }
    ensures cause { result ≡ Failed → HasRisen faults.old faults.new }
{
    if error.kind() == ErrorKind::OutOfMemory {
        StoreError::OutOfMemory
    } else {
        *faults = faults.saturating_add(1);
        StoreError::Failed
    }
}

// The path of a file, or of a folder where the name is empty.
fn path_of<R: AllocGlobal>(rt: &R, dir: &[u8], name: &[u8]) -> io::Result<String> {
    let mut path = String::from_str(rt.alloc(), text_of(dir)?)?;
    if !dir.is_empty() && !name.is_empty() {
        path.push('/')?;
    }
    path.push_str(text_of(name)?)?;
    Ok(path)
}

fn text_of(bytes: &[u8]) -> io::Result<&str> {
    match str::from_utf8(bytes) {
        Ok(text) => Ok(text),
        Err(_) => Err(io::Error::from(ErrorKind::InvalidFilename)),
    }
}

fn names_in<R: Files + AllocGlobal + Clone + Drop>(rt: &R, dir: &[u8]) -> io::Result<Vec<Text>> {
    let mut names = Vec::new(rt.alloc());
    let path = path_of(rt, dir, b"")?;
    let Some(entries) = unless_missing(fs::read_dir(rt, path.as_str()))? else {
        return Ok(names);
    };
    for entry in entries {
        let entry = entry?;
        if is_plain_file(unless_missing(fs::metadata(rt, entry.path()))?) {
            let name = Text::from_bytes(rt.alloc(), entry.file_name().as_bytes()).map_err(
                |_| AllocError,
            )?;
            names.push(name)?;
        }
    }
    Ok(names)
}

// What was found, or nothing where it is missing. Every other error stays one.
fn unless_missing<T: Drop>(found: io::Result<T>) -> io::Result<Option<T>>
    ensures found { IfOk found (λ thing. result ≡ Ok (Some thing)) }
    ensures missing { IfErr found (λ error. error_kind error ≡ ErrorKind.NotFound → result ≡ Ok None) }
    ensures fault { IfErr found (λ error. error_kind error ≢ ErrorKind.NotFound → IsErr result) }
{
    match found {
        Ok(thing) => Ok(Some(thing)),
        Err(error) if error.kind() == ErrorKind::NotFound => Ok(None),
        Err(error) => Err(error),
    }
}

// Whether a name's file, or what a link leads to, is a plain file. A link that leads nowhere is none.
fn is_plain_file(found: Option<Metadata>) -> bool
    ensures { IsTrue result ↔ IsSomeAnd found (λ metadata. IsFile (file_type metadata)) }
{
    found.is_some_and(|metadata| metadata.is_file())
}

// Reads the next part of the file that is open, or the first of one that is opened for it. Answers how
// many bytes came, and the file where more can come.
fn read_part<R: Files + AllocGlobal>(
    rt: &R,
    opened: Option<OpenedFile<R::File>>,
    dir: &[u8],
    name: &[u8],
    at: u64,
    buf: &mut [u8],
) -> io::Result<(usize, Option<OpenedFile<R::File>>)>
    ensures { IfOk result (λ part. part.0 ≤ length buf.new) }
{
    let opened = if at == 0 {
        open_file(rt, dir, name)?
    } else {
        opened
    };
    match opened {
        Some(mut file) if file.stands_at(dir, name, at) => {
            let count = file.read(buf)?;
            Ok((count, if count > 0 { Some(file) } else { None }))
        }
        None if at == 0 => Ok((0, None)),
        _ => Err(io::Error::from(ErrorKind::NotSeekable)),
    }
}

// Opens a file at its first byte. One of no folder that isn't there is none.
fn open_file<R: Files + AllocGlobal>(
    rt: &R,
    dir: &[u8],
    name: &[u8],
) -> io::Result<Option<OpenedFile<R::File>>> {
    let path = path_of(rt, dir, name)?;
    match unless_missing(fs::open(rt, path.as_str()))? {
        Some(file) => Ok(Some(OpenedFile::new(rt.alloc(), file, dir, name)?)),
        None if dir.is_empty() => Ok(None),
        None => Err(io::Error::from(ErrorKind::NotFound)),
    }
}
