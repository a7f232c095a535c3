//! What holds of walks.
ghost use Rattle.jr_local_walks.specs.Walked.{ExtractIsWalked, InlineIsWalked};

/// Where locals are in the order of their numbers, what the walk gathers of an expression, of its
/// statement and of those behind it, each by its own mapping, is what extract local asks of them.
pub fn extract_is_walked()
    ensures { ExtractIsWalked }
{}

/// What the walk gathers of the statements behind a declaration, with spots at the reads, is what
/// inline local asks of them.
pub fn inline_is_walked()
    ensures { InlineIsWalked }
{}
