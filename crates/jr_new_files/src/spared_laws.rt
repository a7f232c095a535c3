//! The law that no call's clause can carry.
ghost use Rattle.jr_new_files.specs.Spared.{SparedGiveNothing};

use jr_table::{lookups_are_exact, types_are_exact};
use jr_text::Mark;

/// A rename gives nothing for a member that breaks no rule and refers to nothing by the old name or
/// the new one, where no class and no local of the member gets another name: none of its words
/// changes, none is spelled otherwise, and none is lost.
pub fn spared_give_nothing<A: Mark>()
    ensures nothing { SparedGiveNothing A }
{
    lookups_are_exact();
    types_are_exact::<A>();
}
