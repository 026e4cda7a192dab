//! Reading a whole file of a store.
ghost use Rattle.std.specs.Prelude.{◌≡◌, ◌<◌, ◌≤◌, ◌≢◌, ◌+◌, ◌^◌, length, Err, IfOk, OnOk, IfSome};
ghost use Rattle.ht_outside.specs.Faults.{HasRisen};
ghost use Rattle.ht_outside.specs.Files.{bytes_of};
ghost use Rattle.hosttrace.specs.Reading.{HasPart};
ghost use Rattle.hosttrace.specs.Seen.{OnlyReads, store_seen};
ghost use Rattle.hosttrace.specs.declared.reading.ReadError.TheVariants.{Fault, TooLarge};

use ht_outside::{Store, StoreError};
use std::alloc::{AllocError, AllocFailed, Global};

/// How many bytes are asked for at a time.
const BUFFER_SIZE: usize = 65_536;

/// Why a file was not read.
#[derive(Clone, Copy, Debug, PartialEq, Eq)]
pub enum ReadError {
    Fault,
    TooLarge,
    OutOfMemory,
}

impl From<AllocError> for ReadError {
    ghost use Rattle.std.specs.Prelude.{◌≡◌};
    ghost use Rattle.hosttrace.specs.declared.reading.ReadError.TheVariants as variant;

    ghost from_gives = { λ _ e. e ≡ variant.OutOfMemory };

    fn from(_error: AllocError) -> ReadError {
        ReadError::OutOfMemory
    }
}

impl From<StoreError> for ReadError {
    ghost use Rattle.std.specs.Prelude.{◌≡◌};
    ghost use Rattle.hosttrace.specs.Statuses.{read_error};

    ghost from_gives = { λ error e. e ≡ read_error error };

    fn from(error: StoreError) -> ReadError {
        match error {
            StoreError::Failed => ReadError::Fault,
            StoreError::OutOfMemory => ReadError::OutOfMemory,
        }
    }
}

/// Reads a file of at most so many bytes from its first to its last. One that isn't there has no bytes.
pub fn read_file<S: Store>(
    alloc: Global,
    store: &mut S,
    dir: &[u8],
    name: &[u8],
    limit: usize,
) -> Result<Vec<u8>, ReadError>
    requires { limit < 2 ^ 62 }
    ensures bytes { IfOk result (λ v. IfSome (S.holds store.old) (λ files. v.items ≡ bytes_of files dir.now name.now)) }
    ensures small { IfOk result (λ v. length v.items ≤ limit) }
    ensures large { result ≡ Err TooLarge → IfSome (S.holds store.old) (λ files. limit < length (bytes_of files dir.now name.now)) }
    ensures fault { result ≡ Err Fault → HasRisen (S.faults store.old) (S.faults store.new) }
    ensures reads { OnlyReads (store_seen S.holds S.faults store.old store.new) }
{
    let mut buffer = zeros(alloc, BUFFER_SIZE)?;
    let mut bytes = Vec::new(alloc);
    read_all(store, dir, name, limit, &mut buffer, &mut bytes)?;
    Ok(bytes)
}

// A buffer of so many bytes.
fn zeros(alloc: Global, size: usize) -> Result<Vec<u8>, AllocError>
    ensures { IfOk result (λ v. length v.items ≡ size) }
{
    vec![in alloc; 0; size]
}

// Reads what is left of a file, part by part, until its end or one byte past the limit.
fn read_all<S: Store>(
    store: &mut S,
    dir: &[u8],
    name: &[u8],
    limit: usize,
    buffer: &mut [u8],
    bytes: &mut Vec<u8>,
) -> Result<(), ReadError>
    requires limit { limit < 2 ^ 62 }
    requires buffer { 0 < length buffer.old }
    requires empty { length bytes.old.items ≡ 0 }
    ensures bytes { OnOk result (IfSome (S.holds store.old) (λ files. bytes.new.items ≡ bytes_of files dir.now name.now)) }
    ensures small { OnOk result (length bytes.new.items ≤ limit) }
    ensures large { result ≡ Err TooLarge → IfSome (S.holds store.old) (λ files. limit < length (bytes_of files dir.now name.now)) }
    ensures fault { result ≡ Err Fault → HasRisen (S.faults store.old) (S.faults store.new) }
    ensures reads { OnlyReads (store_seen S.holds S.faults store.old store.new) }
{
    while bytes.len() <= limit {
        let size = buffer.len().min(limit + 1 - bytes.len());
        if read_part(store, dir, name, &mut buffer[..size], bytes)? == 0 {
            return Ok(());
        }
    }
    Err(ReadError::TooLarge)
}

// Reads the next part of a file after the bytes that were read, and answers its length.
fn read_part<S: Store>(
    store: &mut S,
    dir: &[u8],
    name: &[u8],
    buffer: &mut [u8],
    bytes: &mut Vec<u8>,
) -> Result<usize, ReadError>
    requires { 0 < length buffer.old }
    ensures count { IfOk result (λ n. length bytes.new.items ≡ length bytes.old.items + n × (n ≤ length buffer.old)) }
    ensures part { IfOk result (λ n. IfSome (S.holds store.old) (λ files. HasPart (bytes_of files dir.now name.now) bytes.old.items n bytes.new.items)) }
    ensures large { result ≢ Err TooLarge }
    ensures fault { result ≡ Err Fault → HasRisen (S.faults store.old) (S.faults store.new) }
    ensures reads { OnlyReads (store_seen S.holds S.faults store.old store.new) }
{
    match store.read(dir, name, bytes.len() as u64, buffer) {
        Ok(count) => {
            bytes.extend_from_slice(&buffer[..count])?;
            Ok(count)
        }
        Err(error) => Err(ReadError::from(error)),
    }
}
