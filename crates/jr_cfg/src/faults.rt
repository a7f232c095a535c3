//! What keeps a member from having a graph.

use std::alloc::AllocError;
use thiserror::Error;

/// Why there is no graph of a member.
#[derive(Debug, Drop, Error)]
pub enum CfgFault {
    /// It has so many sites, which are more than 1,000.
    #[error("a member has {count} sites")]
    TooManySites { count: u32 },
    #[error("out of memory")]
    Memory,
}

impl From<AllocError> for CfgFault {
    ghost use Rattle.std.specs.Prelude.{◌≡◌};
    ghost use Rattle.jr_cfg.specs.declared.faults.CfgFault.TheVariants.{Memory};

    ghost from_gives = { λ _ e. e ≡ Memory };

    fn from(_error: AllocError) -> CfgFault {
        CfgFault::Memory
    }
}
