//! Why a text can't be read.

ghost use Rattle.std.specs.Prelude.{◌≡◌};
ghost use Rattle.jr_pexpr.specs.declared.faults.ParseFault.TheVariants.{Memory};

use std::alloc::AllocError;

/// Why nothing could be read.
#[derive(Clone, Copy, PartialEq, Eq, Debug, thiserror::Error)]
pub enum ParseFault {
    /// No tree is spelled there. At `at` is the first byte of the first token such that no tree's
    /// spelling begins with the tokens up to it and with it, or the file's end where there is no
    /// such token.
    #[error("no tree's spelling goes on at byte {at}")]
    Syntax { at: u32 },
    /// Memory ran out.
    #[error("out of memory")]
    Memory,
}

impl From<AllocError> for ParseFault {
    ghost from_gives = { λ _ e. e ≡ Memory };

    fn from(_failed: AllocError) -> ParseFault {
        ParseFault::Memory
    }
}
