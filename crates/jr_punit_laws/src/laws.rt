ghost use Rattle.jr_grammar.specs.Units.{OneList, OneMember, OneUnit};
ghost use Rattle.jr_punit_laws.specs.MarkedAlike.{ReadsAlike, ReadsMarked};
ghost use Rattle.jr_punit_laws.specs.OneReading.{OneReading, OneMarkedTree};
ghost use Rattle.jr_punit_laws.specs.Parsing.{OneAnswer};
ghost use Rattle.jr_punit_laws.specs.StopPlaces.{StopsHavePlaces, StopsHaveOnePlace};
ghost use Rattle.jr_punit_laws.specs.Exact.{ListIsRead, ListStopIsExact, MemberIsRead};
ghost use Rattle.jr_punit_laws.specs.Exact.{MemberLengthIsLongest, MemberStopIsExact, UnitIsRead};
ghost use Rattle.jr_punit_laws.specs.Exact.{UnitStopIsExact};

use jr_grammar::{
    marks_are_one, member_ignores_marks, readings_are_one, statement_ignores_marks,
    unit_ignores_marks,
};
use jr_lex::one_answer;
use jr_text::Span;

/// No two lists of statements spell the same tokens (JLS 14.2).
pub fn one_list()
    ensures { OneList }
{}

/// The machine for lists of statements reads the list that tokens are, and none only where they are
/// none.
pub fn list_is_read()
    ensures { ListIsRead }
{}

/// It stops at the first token such that no list begins with the tokens up to and including it.
pub fn list_stop_is_exact()
    ensures { ListStopIsExact }
{}

/// No two members of a class, of a given name and kind, spell the same tokens (JLS 8.1.6).
pub fn one_member()
    ensures { OneMember }
{}

/// The machine for members reads the member that tokens are, and none only where they are none.
pub fn member_is_read()
    ensures { MemberIsRead }
{}

/// It finds the longest member that tokens begin with, and finds none only where there is none.
pub fn member_is_longest()
    ensures { MemberLengthIsLongest }
{}

/// It stops at the first token such that no member begins with the tokens up to and including it.
pub fn member_stop_is_exact()
    ensures { MemberStopIsExact }
{}

/// No two compilation units spell the same tokens (JLS 7.3).
pub fn one_unit()
    ensures { OneUnit }
{}

/// The machine for units reads the unit that tokens are, and none only where they are none.
pub fn unit_is_read()
    ensures { UnitIsRead }
{}

/// It stops at the first token such that no unit begins with the tokens up to and including it.
pub fn unit_stop_is_exact()
    ensures { UnitStopIsExact }
{}

/// Each number of tokens of a text, as a stop is, has a place there: the first byte of the token
/// behind them and its item, or the text's length. It has no other.
pub fn stops_have_places()
    ensures place { StopsHavePlaces }
    ensures one { StopsHaveOnePlace }
{}

/// The machines over tokens with places read, find and stop as those over tokens alone.
pub fn marked_reads_alike()
    ensures { ReadsAlike }
{}

/// What the machines read over tokens with places has the span of each node's tokens as that node's
/// mark.
pub fn marks_are_spans()
    ensures { ReadsMarked }
{
    statement_ignores_marks::<Span, ()>();
    member_ignores_marks::<Span, ()>();
    unit_ignores_marks::<Span, ()>();
}

/// No text reads as two units, as two members of a class or as two statements, but for their marks.
pub fn one_reading<A>()
    ensures { OneReading A }
{
    one_answer();
    statement_ignores_marks::<A, ()>();
    member_ignores_marks::<A, ()>();
    unit_ignores_marks::<A, ()>();
}

/// Tokens with places are one unit at most with its spans, one member of a class, one list of
/// statements and one statement: the marks are one too.
pub fn one_marked_tree()
    ensures { OneMarkedTree }
{
    marks_are_one();
    statement_ignores_marks::<Span, ()>();
    member_ignores_marks::<Span, ()>();
    unit_ignores_marks::<Span, ()>();
}

/// A text is one unit at most with its spans, or has one place where none can be, and never both.
pub fn unit_has_one_answer()
    ensures { OneAnswer }
{
    one_marked_tree();
    stops_have_places();
    readings_are_one();
    unit_ignores_marks::<Span, ()>();
}
