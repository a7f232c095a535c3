//! The law on references, which no call's clause can carry.
ghost use Rattle.jr_images.specs.RenameLaws.{ReferencesAreKept};

use jr_spell::spellings_rebind;
use jr_table::{lookups_are_exact, types_are_exact};
use jr_text::Mark;

/// Where every reference takes the first spelling that binds to the image of its declaration, each
/// one is bound to that image in the new program, by binding's own relations; each written type
/// means the image of the type that it meant, each superclass and each written `super(..)` the
/// image of its class and constructor. For locals, fields, methods with their families and classes
/// alike, and for all of the language.
pub fn references_are_kept<A: Mark>()
    ensures { ReferencesAreKept A }
{
    spellings_rebind::<A>();
    lookups_are_exact();
    types_are_exact::<A>();
}
