//! A law of spellings that no call's clause can carry.
ghost use Rattle.jr_spell.specs.Rebound.{SpellingsRebind, ThroughClassRebinds};
ghost use Rattle.jr_spell.specs.Rebound.{ClassesRebind, FrontsRebind};

use jr_table::{lookups_are_exact, types_are_exact};
use jr_text::Mark;

/// A spelling that binds, read again as a tree in a context of its scope, is bound to the
/// declaration by binding's own relation and breaks none of the rules on static contexts, on
/// static members through values and on instance members through classes; the name of a class as a
/// type is that class; and so is what a spelling puts in front of a dot. Whatever the marks are.
pub fn spellings_rebind<A: Mark>()
    ensures bound { SpellingsRebind A }
    ensures through { ThroughClassRebinds A }
    ensures classes { ClassesRebind A }
    ensures fronts { FrontsRebind A }
{
    lookups_are_exact();
    types_are_exact::<A>();
}
