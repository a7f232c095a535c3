//! The law of a rename, as the case of one region.
ghost use Rattle.jr_kept_references.specs.ExpressionLaws.{ExpressionsAreKept};

use jr_spell::spellings_rebind;
use jr_table::{lookups_are_exact, types_are_exact};
use jr_text::Mark;

/// Where a renamed expression loses nothing, its reference is bound in the new program, by
/// binding's own relations, to the image of what it was bound to: a rename is the case of one
/// region in which all references are asked alike.
pub fn renamed_expressions_are_kept<A: Mark>()
    ensures { ExpressionsAreKept A }
{
    spellings_rebind::<A>();
    lookups_are_exact();
    types_are_exact::<A>();
}
