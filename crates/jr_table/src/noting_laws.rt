//! Laws of what binding notes, which no call's clause can carry.
ghost use Rattle.jr_table.specs.NotingLaws.{
  StatementsAreNoted,
  ListsAreNoted,
  HeadsAreNoted,
  DeclarationsAreNoted,
  PartsAreNoted,
  AreErrorsOfLogs,
  PartsHaveErrors,
};

use jr_text::Mark;

/// What a statement notes itself is what the relations say: the rules that it breaks itself, each
/// with its place, and what its references are bound to (JLS 6, 14), whatever the marks are.
pub fn statements_are_noted<A: Mark>()
    ensures statements { StatementsAreNoted A }
{}

/// What a list of statements notes itself is what isn't reached in it (JLS 14.21).
pub fn lists_are_noted<A: Mark>()
    ensures lists { ListsAreNoted A }
{}

/// What the head of a class notes is what the relations say (JLS 8.1.4, 8.8.7).
pub fn heads_are_noted<A: Mark>()
    ensures heads { HeadsAreNoted A }
{}

/// What the declaration of a field, method or constructor notes is what the relations say (JLS 8.3,
/// 8.4.5, 8.4.8, 8.8.7).
pub fn declarations_are_noted<A: Mark>()
    ensures declarations { DeclarationsAreNoted A }
{}

/// The log of a whole member, or of the head of a class, holds the rules that it breaks, each
/// with its place, and what each reference is bound to, and nothing else.
pub fn parts_are_noted<A: Mark>()
    ensures parts { PartsAreNoted A }
{}

/// The errors of a log are told by place and rule, each once, and no others. A sort and one walk
/// make that list, whatever the order in which they were noted.
pub fn errors_are_told()
    ensures errors { AreErrorsOfLogs }
{}

/// The errors of a whole member, or of the head of a class, are those of its log.
pub fn parts_have_errors<A: Mark>()
    ensures errors { PartsHaveErrors A }
{}
