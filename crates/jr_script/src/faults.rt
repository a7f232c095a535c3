//! What may be wrong with a script.

use jr_ast::Name;
use std::alloc::{AllocError, AllocFailed};
use std::fmt;
use thiserror::Error;

/// Why bytes are no script.
#[derive(Drop, Error)]
pub enum ScriptFault {
    /// There are more than [`MAX_SCRIPT_LEN`](crate::MAX_SCRIPT_LEN) bytes.
    #[error("the script is too long")]
    TooLong,
    /// The bytes are no JSON text.
    #[error("the script is no JSON")]
    NotJson,
    /// The value is no array.
    #[error("the script is no list")]
    NotAList,
    /// The array has more than [`MAX_STEPS`](crate::MAX_STEPS) elements: `count` of them.
    #[error("{count} steps are too many")]
    TooMany { count: u32 },
    /// The element of the number `step`, counted from 0, is the first that is no step. `member` is
    /// `step` where it is no object or has no known word there, else the first member of its row
    /// that is missing or of the wrong kind, else the first surplus member in byte order.
    #[error("step {step} is none, by its member {}", .member.as_str())]
    NotAScript { step: u32, member: Name },
    #[error("out of memory")]
    Memory,
}

impl From<AllocError> for ScriptFault {
    ghost use Rattle.std.specs.Prelude.{◌≡◌};
    ghost use Rattle.jr_script.specs.declared.faults.ScriptFault.TheVariants.{Memory};

    ghost from_gives = { λ _ e. e ≡ Memory };

    fn from(_error: AllocError) -> ScriptFault {
        ScriptFault::Memory
    }
}

impl<T: Drop> From<AllocFailed<T>> for ScriptFault {
    ghost use Rattle.std.specs.Prelude.{◌≡◌};
    ghost use Rattle.jr_script.specs.declared.faults.ScriptFault.TheVariants.{Memory};

    ghost from_gives = { λ _ e. e ≡ Memory };

    fn from(_error: AllocFailed<T>) -> ScriptFault {
        ScriptFault::Memory
    }
}

impl fmt::Debug for ScriptFault {
    fn fmt<W: fmt::Write>(&self, f: &mut fmt::Formatter<W>) -> fmt::Result {
        write!(f, "{self}")
    }
}

/// Why an element is no step: the member that is told, or want of memory.
#[derive(Drop)]
pub(crate) enum StepFault {
    Member(Name),
    Memory,
}

impl From<AllocError> for StepFault {
    ghost use Rattle.std.specs.Prelude.{◌≡◌};
    ghost use Rattle.jr_script.specs.declared.faults.StepFault.TheVariants.{Memory};

    ghost from_gives = { λ _ e. e ≡ Memory };

    fn from(_error: AllocError) -> StepFault {
        StepFault::Memory
    }
}
