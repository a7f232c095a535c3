//! The law of a rename, as the case of one region without spots.
ghost use Rattle.jr_image_code.specs.Laws.{RenamedExpressionsAreImages};

use jr_spell::spellings_rebind;
use jr_table::{lookups_are_exact, types_are_exact};
use jr_text::Mark;

/// Where a renamed expression loses nothing, its code is the image of the old code, in which all
/// locals agree, whatever codes the two have.
pub fn renamed_expressions_are_images<A: Mark>()
    ensures { RenamedExpressionsAreImages A }
{
    spellings_rebind::<A>();
    lookups_are_exact();
    types_are_exact::<A>();
}
