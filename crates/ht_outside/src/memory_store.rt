//! A store in memory.
ghost use Rattle.std.specs.Prelude.{◌≡◌, ◌&&◌, [], OnOk, OnErr, Some, None, position, length, ◌<◌, ◌≤◌, ◌↔◌, IsTrue, Contains, List, ◌++◌, ◌∷◌};
ghost use Rattle.ht_outside.specs.Files.{ReadsFrom, ListsNames, bytes_of};
ghost use Rattle.ht_outside.specs.Stored.{is_at, files_in, Puts};
ghost use Rattle.ht_outside.specs.declared.memory_store.StoredFile.{StoredFile};
ghost use Rattle.std.specs.Cmp.Lexicographic.{pointwise};

use crate::{Store, StoreError};
use std::alloc::Global;
use trace_types::{OutOfMemory, Text};

/// A file of a `MemoryStore`.
#[derive(Debug, Drop)]
pub(crate) struct StoredFile {
    dir: Text,
    name: Text,
    bytes: Text,
}

impl StoredFile {
    ghost use Rattle.ht_outside.specs.Stored.{is_at};

    fn is_at(&self, dir: &[u8], name: &[u8]) -> bool
        ensures { result ≡ is_at dir.now name.now self.now }
    {
        self.dir.as_bytes() == dir && self.name.as_bytes() == name
    }
}

/// Files that were put there. It never fails.
#[derive(Debug, Drop)]
pub struct MemoryStore {
    alloc: Global,
    files: Vec<StoredFile>,
}

impl MemoryStore {
    ghost use Rattle.ht_outside.specs.Stored.{files_of, Puts};
    ghost use Rattle.ht_outside.specs.Files.{Files};

    /// A store with no files.
    pub fn new(alloc: Global) -> MemoryStore
        ensures { files_of result ≡ (λ _ _. None) }
    {
        MemoryStore {
            alloc,
            files: Vec::new(alloc),
        }
    }

    /// Puts a file into the store, in the place of one of that name. At an error nothing changed.
    pub fn put(&mut self, dir: &[u8], name: &[u8], bytes: &[u8]) -> Result<(), OutOfMemory>
        ensures ok { OnOk result (Puts (files_of self.old) dir.now name.now bytes.now (files_of self.new)) }
        ensures err { OnErr result (files_of self.new ≡ files_of self.old) }
    {
        let file = StoredFile {
            dir: Text::from_bytes(self.alloc, dir)?,
            name: Text::from_bytes(self.alloc, name)?,
            bytes: Text::from_bytes(self.alloc, bytes)?,
        };
        put_file(&mut self.files, file)
    }
}

// Puts a file in the place of the one of its folder and name, or after all others.
fn put_file(files: &mut Vec<StoredFile>, file: StoredFile) -> Result<(), OutOfMemory>
    ensures ok { OnOk result (Puts (files_in files.old.items) file.dir file.name file.bytes (files_in files.new.items)) }
    ensures err { OnErr result (files.new.items ≡ files.old.items) }
{
    match place_of(files, file.dir.as_bytes(), file.name.as_bytes()) {
        Some(place) => {
            files[place] = file;
            Ok(())
        }
        None => {
            files.push(file)?;
            Ok(())
        }
    }
}

// The place of the file of this folder and name.
fn place_of(files: &[StoredFile], dir: &[u8], name: &[u8]) -> Option<usize>
    ensures { result ≡ position (is_at dir.now name.now) files.now }
{
    files.iter().position(|file| file.is_at(dir, name))
}

// The bytes of the file of this folder and name, none where there is no such file.
fn bytes_of<'a>(files: &'a [StoredFile], dir: &[u8], name: &[u8]) -> &'a [u8]
    ensures { result.now ≡ bytes_of (files_in files.now) dir.now name.now }
{
    match place_of(files, dir, name) {
        Some(place) => files[place].bytes.as_bytes(),
        None => &[],
    }
}

impl Store for MemoryStore {
    ghost use Rattle.std.specs.Prelude.{Some};
    ghost use Rattle.ht_outside.specs.Stored.{files_of};

    ghost holds = { λ s. Some (files_of s) };

    ghost faults = { λ _. 0 };

    fn names(&mut self, dir: &[u8]) -> Result<Vec<Text>, StoreError> {
        let mut names = Vec::new(self.alloc);
        for file in &self.files {
            add_name(self.alloc, &mut names, file, dir)?;
        }
        Ok(names)
    }

    fn read(
        &mut self,
        dir: &[u8],
        name: &[u8],
        at: u64,
        buf: &mut [u8],
    ) -> Result<usize, StoreError> {
        Ok(copy_from(bytes_of(&self.files, dir, name), at, buf))
    }
}

// Adds the name of a file that lies in the folder and isn't listed yet.
fn add_name(
    alloc: Global,
    names: &mut Vec<Text>,
    file: &StoredFile,
    dir: &[u8],
) -> Result<(), OutOfMemory>
    ensures ok { OnOk result ((files : List StoredFile) → ListsNames (files_in files) dir.now names.old.items → ListsNames (files_in (files ++ file.now ∷ [])) dir.now names.new.items) }
{
    if file.dir.as_bytes() != dir {
        return Ok(());
    }
    if lists(names, file.name.as_bytes()) {
        return Ok(());
    }
    names.push(Text::from_bytes(alloc, file.name.as_bytes())?)?;
    Ok(())
}

// Whether the names hold this one.
fn lists(names: &[Text], name: &[u8]) -> bool
    ensures { IsTrue result ↔ Contains names.now name.now }
{
    names.iter().any(|listed| listed.as_bytes() == name)
}

// Copies bytes from byte `at` on, as many as there are and the buffer takes.
fn copy_from(bytes: &[u8], at: u64, buf: &mut [u8]) -> usize
    requires { 0 < length buf.old }
    ensures bound { result ≤ length buf.new }
    ensures bytes { ReadsFrom bytes.now at result buf.new }
{
    let start = bytes.len().min(at as usize);
    let left = &bytes[start..];
    let count = left.len().min(buf.len());
    buf[..count].copy_from_slice(&left[..count]);
    count
}
