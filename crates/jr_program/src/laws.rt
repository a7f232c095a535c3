//! Laws that no call's clause can carry.
ghost use Rattle.jr_program.specs.MemberLaws.{EachIsKnown, EachIsInOrder};

/// Where written members are bound, one bound each in the same order, all that they have is known,
/// and the bounds stand in file order as the members do.
pub fn members_are_known()
    ensures known { EachIsKnown }
    ensures order { EachIsInOrder }
{}
