//! The law that no call's clause can carry.
ghost use Rattle.jr_members.specs.WrittenLaws.{MembersAreWritten};

/// The list of written members holds a member, with where its parent begins and with its tree,
/// exactly where a class of the file of its number writes it (JLS 8); it has each once, and with
/// the number of its row. The rows are those of the files.
pub fn members_are_written<A>()
    ensures { MembersAreWritten A }
{}
