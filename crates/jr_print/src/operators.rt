//! How operators and words are written.
ghost use Rattle.std.specs.Prelude.{◌≡◌, ◌++◌, if◌then◌else◌, codes};
ghost use Rattle.jr_lex.specs.Words.{keyword_text};
ghost use Rattle.jr_grammar.specs.MemberSpelling.{modifier_keyword};
ghost use Rattle.jr_print.specs.ExpressionText.{before_text, behind_text, printed_binary};
ghost use Rattle.jr_print.specs.ExpressionText.{printed_compound};

use jr_ast::{BinOp, BumpOp, ModWord};

/// A binary operator with a space on both sides (JLS 15.17 to 15.24).
pub(crate) fn binary(op: BinOp) -> &'static str
    ensures { result.now ≡ printed_binary op }
{
    match op {
        BinOp::Or => " || ",
        BinOp::And => " && ",
        BinOp::Eq => " == ",
        BinOp::Ne => " != ",
        BinOp::Lt => " < ",
        BinOp::Gt => " > ",
        BinOp::Le => " <= ",
        BinOp::Ge => " >= ",
        BinOp::Add => " + ",
        BinOp::Sub => " - ",
        BinOp::Mul => " * ",
        BinOp::Div => " / ",
        BinOp::Rem => " % ",
    }
}

/// A compound assignment's operator with a space on both sides (JLS 15.26.2).
pub(crate) fn compound(op: BinOp) -> &'static str
    ensures { result.now ≡ printed_compound op }
{
    match op {
        BinOp::Add => " += ",
        BinOp::Sub => " -= ",
        BinOp::Mul => " *= ",
        BinOp::Div => " /= ",
        BinOp::Rem => " %= ",
        BinOp::Or => " || ",
        BinOp::And => " && ",
        BinOp::Eq => " == ",
        BinOp::Ne => " != ",
        BinOp::Lt => " < ",
        BinOp::Gt => " > ",
        BinOp::Le => " <= ",
        BinOp::Ge => " >= ",
    }
}

/// `true` or `false` (JLS 3.10.3).
pub(crate) fn truth(value: bool) -> &'static str
    ensures { result.now ≡ (if value then codes "true" else codes "false") }
{
    if value { "true" } else { "false" }
}

/// A modifier with a space behind it (JLS 8.1.1, 8.3.1, 8.4.3).
pub(crate) fn modifier(word: ModWord) -> &'static str
    ensures { result.now ≡ keyword_text (modifier_keyword word) ++ codes " " }
{
    match word {
        ModWord::Public => "public ",
        ModWord::Protected => "protected ",
        ModWord::Private => "private ",
        ModWord::Static => "static ",
        ModWord::Final => "final ",
        ModWord::Volatile => "volatile ",
        ModWord::Synchronized => "synchronized ",
    }
}

/// `++` or `--` that stands in front of its operand (JLS 15.15.1, 15.15.2), or else nothing.
pub(crate) fn before_bumped(op: BumpOp) -> &'static str
    ensures { result.now ≡ before_text op }
{
    match op {
        BumpOp::PreInc => "++",
        BumpOp::PreDec => "--",
        BumpOp::PostInc => "",
        BumpOp::PostDec => "",
    }
}

/// `++` or `--` that stands behind its operand (JLS 15.14.2, 15.14.3), or else nothing.
pub(crate) fn behind_bumped(op: BumpOp) -> &'static str
    ensures { result.now ≡ behind_text op }
{
    match op {
        BumpOp::PreInc => "",
        BumpOp::PreDec => "",
        BumpOp::PostInc => "++",
        BumpOp::PostDec => "--",
    }
}
