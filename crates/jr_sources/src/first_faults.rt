//! The first file that has a fault by itself.
ghost use Rattle.std.specs.Prelude.{MatchOption};
ghost use Rattle.jr_sources.specs.FirstOf.{HaveNone, IsFirstOf};

use crate::faults::ReadingFault;

/// The first fault among those of the files, and the file's number.
pub(crate) fn first_of(faults: &[Option<ReadingFault>]) -> Option<(usize, ReadingFault)>
    ensures { MatchOption result (HaveNone faults.now)
        (λ found. IsFirstOf faults.now found.0 found.1) }
{
    for (number, fault) in faults.iter().enumerate() {
        if let Some(found) = fault {
            return Some((number, *found));
        }
    }
    None
}
