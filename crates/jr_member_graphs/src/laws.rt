//! The law of flags.
ghost use Rattle.jr_member_graphs.specs.GivenFlags.{FlagsTellTheMember};

/// A graph or a footprint that is given the flags of its own member's locals has a test for null
/// exactly where the value may be null.
pub fn flags_tell_the_member()
    ensures { FlagsTellTheMember }
{}
