//! The law that no call's clause can carry.
ghost use Rattle.jr_cache.specs.Lasting.{BoundsLast};

use jr_mentions::{apart_look_alike, parts_last, types_last};
use jr_text::Mark;

/// What is bound of a member that refers to nothing by some names is bound of it too where rows
/// are the same but for these names: its references, its errors, the types of its expressions.
pub fn bounds_last<A: Mark>()
    ensures bounds { BoundsLast A }
{
    apart_look_alike();
    parts_last::<A>();
    types_last::<A>();
}
