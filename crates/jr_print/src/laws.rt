//! What holds of printed text.
ghost use Rattle.jr_print.specs.ReadsBack.{ExpressionReadsBack, StatementReadsBack};
ghost use Rattle.jr_print.specs.ReadsBack.{MemberReadsBack, PrintingIgnoresMarks};

use jr_lex::pieces_lex;

/// What an expression of the grammar is printed as reads as that expression (JLS 15).
pub fn expression_reads_back<A>()
    ensures { ExpressionReadsBack A }
{
    pieces_lex();
}

/// What a statement of the grammar is printed as reads as that statement (JLS 14).
pub fn statement_reads_back<A>()
    ensures { StatementReadsBack A }
{
    pieces_lex();
}

/// What a member of a class is printed as reads as that member (JLS 8).
pub fn member_reads_back<A>()
    ensures { MemberReadsBack A }
{
    pieces_lex();
}

/// What a tree is printed as doesn't depend on its marks.
pub fn printing_ignores_marks<A, B>()
    ensures { PrintingIgnoresMarks A B }
{}
