//! What may be wrong with the files of a run.

use std::alloc::{AllocError, AllocFailed};
use thiserror::Error;

/// Why files can't be the sources of a run.
#[derive(Clone, Copy, PartialEq, Eq, Debug, Error)]
pub enum SourceFault {
    /// There are more than 256 of them: `count`.
    #[error("{count} files are too many")]
    TooMany { count: u32 },
    /// A file has more than 1,048,576 bytes.
    #[error("the file is too long")]
    TooLong,
    /// The bytes of a file aren't UTF-8. The longest prefix that is has `valid` bytes.
    #[error("the file is no text behind its first {valid} bytes")]
    NotUtf8 { valid: u32 },
    /// With this file they have more than 8,388,608 bytes together: `len`.
    #[error("{len} bytes are too many")]
    TotalTooLong { len: u64 },
}

/// Why there are no sources. `word` is the number of the word that names the file.
#[derive(Clone, Copy, PartialEq, Eq, Debug, Error)]
pub enum FilesFault {
    /// The shelf failed in the fetch of the file.
    #[error("the file of the word {word} cannot be read")]
    Unread { word: u32 },
    /// What it holds is no source, or no further one.
    #[error("the file of the word {word} is no source: {fault}")]
    BadSource { word: u32, fault: SourceFault },
    #[error("out of memory")]
    Memory,
}

impl<T: Drop> From<AllocFailed<T>> for FilesFault {
    ghost use Rattle.std.specs.Prelude.{◌≡◌};
    ghost use Rattle.jr_files.specs.declared.faults.FilesFault.TheVariants.{Memory};

    ghost from_gives = { λ _ e. e ≡ Memory };

    fn from(_error: AllocFailed<T>) -> FilesFault {
        FilesFault::Memory
    }
}

impl From<AllocError> for FilesFault {
    ghost use Rattle.std.specs.Prelude.{◌≡◌};
    ghost use Rattle.jr_files.specs.declared.faults.FilesFault.TheVariants.{Memory};

    ghost from_gives = { λ _ e. e ≡ Memory };

    fn from(_error: AllocError) -> FilesFault {
        FilesFault::Memory
    }
}

/// The shelf failed in a store, once `stored` files were stored.
#[derive(Clone, Copy, PartialEq, Eq, Debug, Error)]
#[error("no file can be written behind the first {stored}")]
pub struct StoreFault {
    pub stored: u32,
}
