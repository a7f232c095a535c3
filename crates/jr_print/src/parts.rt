//! The parts of a text that hold no expression.
ghost use Rattle.std.specs.Prelude.{◌≡◌, ◌++◌, codes, map};
ghost use Rattle.std.specs.Fmt.{decimal};
ghost use Rattle.jr_ast.specs.View.{word_of, modifier_of, type_of, param_of, expr_of};
ghost use Rattle.jr_print.specs.Adds.{Adds};
ghost use Rattle.jr_print.specs.ExpressionText.{printed_type, printed_dot};
ghost use Rattle.jr_print.specs.StatementText.{printed_variable};
ghost use Rattle.jr_print.specs.MemberText.{printed_modifiers, printed_more_params, printed_params};

use crate::operators;
use jr_ast::{Expr, ExprKind, Ident, Modifier, Name, Param, TypeKind, TypeRef};
use std::alloc::AllocError;

/// A text is put behind `out`.
pub(crate) fn put(out: &mut String, text: &str) -> Result<(), AllocError>
    ensures { Adds result out.old out.new text.now }
{
    out.push_str(text)
}

/// A decimal integer literal (JLS 3.10.1).
pub(crate) fn number(out: &mut String, value: u32) -> Result<(), AllocError>
    ensures { Adds result out.old out.new (decimal value) }
{
    write!(out, "{value}")
}

/// A string literal; `text` is as written (JLS 3.10.5).
pub(crate) fn string(out: &mut String, text: &Name) -> Result<(), AllocError>
    ensures { Adds result out.old out.new (codes "\"" ++ text.now ++ codes "\"") }
{
    put(out, "\"")?;
    put(out, text.as_str())?;
    put(out, "\"")
}

/// An identifier (JLS 3.8).
pub(crate) fn word<A>(out: &mut String, of: &Ident<A>) -> Result<(), AllocError>
    ensures { Adds result out.old out.new (word_of of.now).text }
{
    put(out, of.name.as_str())
}

/// A type as written (JLS 4.1, 6.5.5).
pub(crate) fn ty<A>(out: &mut String, of: &TypeRef<A>) -> Result<(), AllocError>
    ensures { Adds result out.old out.new (printed_type (type_of of.now)) }
{
    match &of.kind {
        TypeKind::Int => put(out, "int"),
        TypeKind::Boolean => put(out, "boolean"),
        TypeKind::Named(None, name) => word(out, name),
        TypeKind::Named(Some(outer), name) => {
            word(out, outer)?;
            put(out, ".")?;
            word(out, name)
        }
    }
}

/// The same of a type in a box.
pub(crate) fn boxed_ty<A>(out: &mut String, of: &Box<TypeRef<A>>) -> Result<(), AllocError>
    ensures { Adds result out.old out.new (printed_type (type_of of.now.value)) }
{
    ty(out, of)
}

/// The dot behind an expression (JLS 15.11, 15.12): behind a number with a space, since `1.` begins
/// no token.
#[tactic(auto, unfolding(jr_ast::specs::View::expr_kind))]
pub(crate) fn dot<A>(of: &Expr<A>) -> &'static str
    ensures { result.now ≡ printed_dot (expr_of of.now) }
{
    if let ExprKind::Int(_) = &of.kind {
        " ."
    } else {
        "."
    }
}

/// A variable with its type, perhaps `final` (JLS 8.4.1, 14.4).
pub(crate) fn variable<A>(
    out: &mut String,
    is_final: bool,
    of_type: &TypeRef<A>,
    name: &Ident<A>,
) -> Result<(), AllocError>
    ensures { Adds result out.old out.new
        (printed_variable is_final (type_of of_type.now) (word_of name.now)) }
{
    put(out, if is_final { "final " } else { "" })?;
    ty(out, of_type)?;
    put(out, " ")?;
    word(out, name)
}

/// Modifiers, each with a space behind it (JLS 8.1.1, 8.3.1, 8.4.3, 8.8.3).
pub(crate) fn modifiers<A>(out: &mut String, words: &[Modifier<A>]) -> Result<(), AllocError>
    ensures { Adds result out.old out.new (printed_modifiers (map modifier_of words.now)) }
{
    for word in words {
        put(out, operators::modifier(word.word))?;
    }
    Ok(())
}

/// Parameters behind others, each with a comma in front of it.
fn more_params<A>(out: &mut String, list: &[Param<A>]) -> Result<(), AllocError>
    ensures { Adds result out.old out.new (printed_more_params (map param_of list.now)) }
{
    for param in list {
        put(out, ", ")?;
        variable(out, param.is_final, &param.ty, &param.name)?;
    }
    Ok(())
}

/// Parameters with a comma between two (JLS 8.4.1).
pub(crate) fn params<A>(out: &mut String, list: &[Param<A>]) -> Result<(), AllocError>
    ensures { Adds result out.old out.new (printed_params (map param_of list.now)) }
{
    match list.split_first() {
        None => Ok(()),
        Some((first, rest)) => {
            variable(out, first.is_final, &first.ty, &first.name)?;
            more_params(out, rest)
        }
    }
}
