//! What holds of each tree, its tokens, and each text that reads as it.

ghost use Rattle.jr_grammar.specs.Expressions.{OneExpressionReading, OneStatementExpressionReading};
ghost use Rattle.jr_grammar.specs.IgnoresMarks.{ExpressionIgnoresMarks, StatementIgnoresMarks};
ghost use Rattle.jr_grammar.specs.IgnoresMarks.{MemberIgnoresMarks, UnitIgnoresMarks};
ghost use Rattle.jr_grammar.specs.MarksAreOne.{TellsApart, MarksAreOne, MarksAreThere};
ghost use Rattle.jr_grammar.specs.MarksAreOne.{StandsSpells, SpansTellThemselves};
ghost use Rattle.jr_grammar.specs.ReadLaws.{ReadsAreGrammar, SpansAreOne, SpansAreThere};
ghost use Rattle.jr_grammar.specs.Units.{OneListReading, OneMemberReading, OneUnitReading};

use jr_lex::{items_are_placed, one_answer};
use jr_text::Mark;

/// What an expression spells, and whether it is one, doesn't depend on its marks.
pub fn expression_ignores_marks<A, B>()
    ensures { ExpressionIgnoresMarks A B }
{}

/// What a statement or a list of statements spells, and whether it is one, doesn't depend on its
/// marks.
pub fn statement_ignores_marks<A, B>()
    ensures { StatementIgnoresMarks A B }
{}

/// What a member spells, and whether it is one, doesn't depend on its marks.
pub fn member_ignores_marks<A, B>()
    ensures { MemberIgnoresMarks A B }
{}

/// What a unit spells, and whether it is one, doesn't depend on its marks.
pub fn unit_ignores_marks<A, B>()
    ensures { UnitIgnoresMarks A B }
{}

/// A tree stands over tokens with one choice of marks, and each tree that spells them with some.
/// What stands over tokens spells them. Marks that are spans tell themselves.
pub fn marks_are_one()
    ensures one { MarksAreOne }
    ensures there { MarksAreThere }
    ensures spells { StandsSpells }
    ensures spans { SpansTellThemselves }
{}

/// A text reads as a tree with one choice of marks, if they tell different spans, and each tree
/// that it reads as with some, where they are spans.
pub fn spans_are_one<A: Mark>()
    ensures one { TellsApart A.span_from → SpansAreOne A.span_from }
    ensures there { SpansAreThere }
{
    one_answer();
}

/// What a text reads as is a tree of the grammar: shaped, its words identifiers, its strings as
/// they may be written, its numbers within their limit.
pub fn reads_are_grammar<A>()
    ensures { ReadsAreGrammar A }
{
    items_are_placed();
}

/// Tokens have one stop, and one longest tree or none, of each kind.
pub fn readings_are_one()
    ensures expressions { OneExpressionReading }
    ensures statement_expressions { OneStatementExpressionReading }
    ensures lists { OneListReading }
    ensures members { OneMemberReading }
    ensures units { OneUnitReading }
{}
