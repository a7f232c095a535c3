ghost use Rattle.jr_grammar.specs.Expressions.{OneExpression, OneStatementExpression};
ghost use Rattle.jr_pexpr.specs.Expressions.{OneMarkedExpression, OneMarked, LengthIsLongest};
ghost use Rattle.jr_pexpr.specs.Expressions.{StatementLengthIsLongest, StopIsExact};
ghost use Rattle.jr_pexpr.specs.Expressions.{StatementStopIsExact, StepsAlike, BuildsMarked};
ghost use Rattle.jr_pexpr.specs.Parsing.{OneAnswer, IsExpressionFrom, IsNoExpressionFrom};
ghost use Rattle.jr_pexpr.specs.Parsing.{IsStatementExpressionFrom, IsNoStatementExpressionFrom};

use jr_grammar::{expression_ignores_marks, marks_are_one, readings_are_one};
use jr_text::Span;

/// No two expressions spell the same tokens (JLS 15).
pub fn one_expression()
    ensures { OneExpression }
{}

/// No two statement expressions spell the same tokens (JLS 14.8).
pub fn one_statement_expression()
    ensures { OneStatementExpression }
{}

/// Expressions with places that spell the same tokens are the same but for their marks, and where
/// each mark is the span of its node's tokens, marks included.
pub fn one_marked_expression()
    ensures spelled { OneMarkedExpression }
    ensures marked { OneMarked }
{
    expression_ignores_marks::<Span, ()>();
    marks_are_one();
}

/// The machine finds the longest expression that tokens begin with, and finds none only where there
/// is none.
pub fn expression_is_longest()
    ensures { LengthIsLongest }
{}

/// The same for statement expressions.
pub fn statement_expression_is_longest()
    ensures { StatementLengthIsLongest }
{}

/// The machine stops at the first token such that no expression begins with the tokens up to and
/// including it.
pub fn expression_stop_is_exact()
    ensures { StopIsExact }
{}

/// The same for statement expressions.
pub fn statement_expression_stop_is_exact()
    ensures { StatementStopIsExact }
{}

/// The machine over tokens with places steps, finds and stops as the one over tokens alone.
pub fn marked_steps_alike()
    ensures { StepsAlike }
{}

/// What the machine builds has the span of each node's tokens as that node's mark.
pub fn marks_are_spans()
    ensures { BuildsMarked }
{
    expression_ignores_marks::<Span, ()>();
}

/// What is read of a text from an item on is one: its tree with all marks, the item behind it and
/// the stop, or the place of the fault, and never both.
pub fn one_answer()
    ensures expressions { OneAnswer IsExpressionFrom IsNoExpressionFrom }
    ensures statement_expressions { OneAnswer IsStatementExpressionFrom
        IsNoStatementExpressionFrom }
{
    readings_are_one();
    one_marked_expression();
}
