//! The laws, each the contract of a function that does nothing.
ghost use Rattle.jr_first_values.specs.Laws.{FirstValuesAreOne, FirstValuesStand};

use jr_members::members_are_written;

/// The static fields of a program without faults of declarations begin with something: what a
/// literal stands for, an object of the field's own, and else the default of the type (JLS 4.12.5,
/// 12.4.2). Each begins with one thing.
pub fn first_values_stand<A>()
    ensures stand { FirstValuesStand A }
    ensures one { FirstValuesAreOne A }
{
    members_are_written::<A>();
}
