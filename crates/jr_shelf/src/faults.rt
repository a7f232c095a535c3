ghost use Rattle.std.specs.Prelude.{◌≡◌};
ghost use Rattle.jr_shelf.specs.declared.faults.FetchFault.TheVariants.{Memory};

use std::alloc::{AllocError, AllocFailed};
use thiserror::Error;

/// Why a fetch gave no bytes.
#[derive(Debug, Drop, Error)]
pub enum FetchFault {
    /// The shelf failed, and its count of faults rose. A name that isn't there is such a failure.
    #[error("the file cannot be read")]
    Failed,
    /// The file has more than `MAX_FILE` bytes.
    #[error("the file is too long")]
    TooLong,
    /// There was no memory for the bytes.
    #[error("out of memory")]
    Memory,
}

/// A store or a put failed, and the count of faults rose.
#[derive(Debug, Drop, Error)]
#[error("the bytes cannot be written")]
pub struct Failed;

/// There was no memory.
#[derive(Debug, Drop, Error)]
#[error("out of memory")]
pub struct Memory;

impl<T: Drop> From<AllocFailed<T>> for FetchFault {
    ghost from_gives = { λ _ e. e ≡ Memory };

    fn from(_fault: AllocFailed<T>) -> FetchFault {
        FetchFault::Memory
    }
}

impl From<AllocError> for FetchFault {
    ghost from_gives = { λ _ e. e ≡ Memory };

    fn from(_fault: AllocError) -> FetchFault {
        FetchFault::Memory
    }
}

impl From<AllocError> for Memory {
    fn from(_fault: AllocError) -> Memory {
        Memory
    }
}
