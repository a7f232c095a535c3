//! What keeps a program from having a table.

use jr_table::DeclKind;
use std::alloc::AllocError;
use thiserror::Error;

/// Why there is no table of a program.
#[derive(Debug, Drop, Error)]
pub enum BuildFault {
    /// The first fault of its declarations: of the lowest kind that occurs, at its first place in
    /// file and text order. The place is in bytes from the start of the file.
    #[error("{} in file {file} at byte {at}", .kind.name())]
    At { file: u32, at: u32, kind: DeclKind },
    #[error("out of memory")]
    Memory,
}

impl From<AllocError> for BuildFault {
    ghost use Rattle.std.specs.Prelude.{◌≡◌};
    ghost use Rattle.jr_build.specs.declared.faults.BuildFault.TheVariants.{Memory};

    ghost from_gives = { λ _ e. e ≡ Memory };

    fn from(_error: AllocError) -> BuildFault {
        BuildFault::Memory
    }
}
