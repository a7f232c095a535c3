//! Laws on kept runs, each the contract of a function that does nothing.
ghost use Rattle.jr_kept_runs.specs.Laws.{
  RenamesKeepFirstValues,
  RenamesKeepHistories,
  RenamesKeepRuns,
};

use jr_members::members_are_written;
use jr_spell::spellings_rebind;
use jr_table::{lookups_are_exact, types_are_exact};
use jr_text::Span;

/// A program in which a rename is planned, and the one whose trees are the planned ones and whose
/// declarations are the images, are exactly alike: each method and constructor, on a receiver and
/// arguments of its types, has exactly the images of its runs, whole and bounded, both ways.
pub fn renames_keep_runs()
    ensures { RenamesKeepRuns }
{
    members_are_written::<Span>();
    spellings_rebind::<Span>();
    lookups_are_exact();
    types_are_exact::<Span>();
}

/// In the second of these programs each static field begins with the image of what it begins with
/// in the first. So what several threads do together, with starts and sequential memory (JLS 17.4),
/// is the same in both: each history of either is one of the other.
pub fn renames_keep_histories()
    ensures first_values { RenamesKeepFirstValues }
    ensures histories { RenamesKeepHistories }
{
    members_are_written::<Span>();
    renames_keep_runs();
}
