// Files by name.

ghost use Rattle.std.specs.Prelude.{◌≡◌, ◌≢◌, ◌≤◌, ℕ, List, vec_len, IfOk, OnOk, IsErrOf};
ghost use Rattle.std.specs.declared.option.Option.{Option};
ghost use Rattle.pra_io.specs.declared.files.FileFault.TheVariants.{Failed, OutOfMemory};
ghost use Rattle.pra_io.specs.Causes.{FileCause};
ghost use Rattle.pra_io.specs.Contents.{Holds, IsLonger, Becomes};

use crate::streams;
use pra_base::OutOfMemory;
use std::alloc::Global;

/// Why a file was not read or written.
#[derive(Clone, Copy, Debug, PartialEq, Eq)]
pub enum FileFault {
    /// The folder failed, and counts that as a fault.
    Failed,
    /// The file holds more bytes than were asked for at most.
    TooLong,
    /// A growth of memory was refused.
    OutOfMemory,
}

impl From<streams::Failed> for FileFault {
    ghost from_gives = { λ _ fault. fault ≡ Failed };

    fn from(_: streams::Failed) -> Self {
        FileFault::Failed
    }
}

impl From<OutOfMemory> for FileFault {
    ghost from_gives = { λ _ fault. fault ≡ OutOfMemory };

    fn from(_: OutOfMemory) -> Self {
        FileFault::OutOfMemory
    }
}

/// A folder of files by name, with a count of faults for reading and one for writing each name.
pub trait Folder {
    /// What a name holds: `None` where the folder does not tell, and `Some None` where the name is
    /// absent.
    ghost file: { Self → List ℕ → Option (Option (List ℕ)) };

    /// How often reading a name has failed.
    ghost read_faults: { Self → List ℕ → ℕ };

    /// How often writing a name has failed.
    ghost write_faults: { Self → List ℕ → ℕ };

    /// The bytes of a file that has at most `max` of them.
    ///
    /// # Errors
    ///
    /// `TooLong` where the file holds more. `Failed` where it could not be read; so it is for an
    /// absent name.
    fn read_file(&mut self, alloc: Global, name: &str, max: usize) -> Result<Vec<u8>, FileFault>
        ensures bytes { IfOk result (λ v. Holds (file self.old name.now) v.items) }
        ensures size { IfOk result (λ v. vec_len v ≤ max) }
        ensures too_long { IsErrOf result FileFault.TooLong → IsLonger
            (file self.old name.now) max }
        ensures same { (n : List ℕ) → file self.new n ≡ file self.old n }
        ensures cause { FileCause name.now (read_faults self.old) (read_faults self.new)
            (write_faults self.old) (write_faults self.new) result };

    /// Makes the file hold the bytes, whether the name was there or not.
    ///
    /// # Errors
    ///
    /// `Failed` where it could not be written: the name may then hold anything. It never answers
    /// `TooLong`.
    fn write_file(&mut self, alloc: Global, name: &str, bytes: &[u8]) -> Result<(), FileFault>
        ensures written { OnOk result (Becomes (file self.old name.now)
            (file self.new name.now) bytes.now) }
        ensures others { (n : List ℕ) → n ≢ name.now → file self.new n ≡ file self.old n }
        ensures never_long { IsErrOf result FileFault.TooLong → ⊥ }
        ensures memory { IsErrOf result FileFault.OutOfMemory → (n : List ℕ) →
            file self.new n ≡ file self.old n }
        ensures cause { FileCause name.now (write_faults self.old) (write_faults self.new)
            (read_faults self.old) (read_faults self.new) result };
}
