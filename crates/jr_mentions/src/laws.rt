//! Laws that no call's clause can carry.
ghost use Rattle.jr_mentions.specs.Lasting.{ApartLookAlike, PartsLast, TypesLast};

use jr_table::{lookups_are_exact, parts_are_noted, types_are_exact};
use jr_text::Mark;

/// Where rows are the same but for some names, lookups of other names answer the same (JLS 6.4,
/// 6.5, 15.9.3, 15.11, 15.12).
pub fn apart_look_alike()
    ensures alike { ApartLookAlike }
{
    lookups_are_exact();
}

/// A part of a program that refers to nothing by these names breaks the same rules, and its
/// references are bound to the same declarations.
pub fn parts_last<A: Mark>()
    ensures parts { PartsLast A }
{
    lookups_are_exact();
    parts_are_noted::<A>();
}

/// And its expressions have the same types.
pub fn types_last<A: Mark>()
    ensures types { TypesLast A }
{
    lookups_are_exact();
    types_are_exact::<A>();
}
