//! Where files are read.
ghost use Rattle.std.specs.Prelude.{◌≡◌, ◌<◌, ◌≤◌, ℕ, List, length, Option, IfOk, IfSome, IsErr};
ghost use Rattle.ht_outside.specs.Files.{Files, ReadsFrom, ListsNames, bytes_of};
ghost use Rattle.ht_outside.specs.Faults.{IsCaused};
ghost use Rattle.ht_outside.specs.declared.store.StoreError.TheVariants.{Failed};

use trace_types::{OutOfMemory, Text};

/// Why a store gave no answer.
#[derive(Clone, Copy, Debug, PartialEq, Eq)]
pub enum StoreError {
    Failed,
    OutOfMemory,
}

impl From<OutOfMemory> for StoreError {
    ghost use Rattle.std.specs.Prelude.{◌≡◌};
    ghost use Rattle.ht_outside.specs.declared.store.StoreError.TheVariants as variant;

    ghost from_gives = { λ _ e. e ≡ variant.OutOfMemory };

    fn from(_error: OutOfMemory) -> StoreError {
        StoreError::OutOfMemory
    }
}

/// Files in folders. A file that is named by one word alone lies in the empty folder.
pub trait Store {
    /// The bytes of each file, by folder and name, where the store tells them.
    ghost holds: { Self → Option Files };

    /// How many calls have failed.
    ghost faults: { Self → ℕ };

    /// The names of the plain files of a folder, each once, in any order. A folder that isn't there
    /// has none.
    fn names(&mut self, dir: &[u8]) -> Result<Vec<Text>, StoreError>
        ensures names { IfOk result (λ names. IfSome (holds self.old) (λ files. ListsNames files dir.now names.items)) }
        ensures keeps { holds self.new ≡ holds self.old }
        ensures cause { IsCaused Failed result (faults self.old) (faults self.new) };

    /// Copies bytes of a file from byte `at` on, and answers how many: 0 exactly at or past the end
    /// of the file. A file that isn't there has no bytes.
    fn read(
        &mut self,
        dir: &[u8],
        name: &[u8],
        at: u64,
        buf: &mut [u8],
    ) -> Result<usize, StoreError>
        requires { 0 < length buf.old }
        ensures bound { IfOk result (λ n. n ≤ length buf.new) }
        ensures bytes { IfOk result (λ n. IfSome (holds self.old) (λ files. ReadsFrom (bytes_of files dir.now name.now) at n buf.new)) }
        ensures keeps { holds self.new ≡ holds self.old }
        ensures cause { IsCaused Failed result (faults self.old) (faults self.new) };
}
