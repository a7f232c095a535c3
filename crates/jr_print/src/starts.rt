//! How an expression's text starts, before it is printed.
ghost use Rattle.std.specs.Prelude.{◌≡◌, ◌++◌, ◌==◌};
ghost use Rattle.jr_lex.specs.Characters.{first_passes};
ghost use Rattle.jr_ast.specs.View.{word_of, type_of, expr_of};
ghost use Rattle.jr_print.specs.ExpressionText.{printed, printed_type, printed_unary};
ghost use Rattle.jr_print.specs.Starts.{IsSign, starts};

use jr_ast::{BumpOp, Expr, ExprKind, Ident, TypeKind, TypeRef, UnOp};

fn word_starts<A>(word: &Ident<A>, sign: u8) -> Option<bool>
    ensures { result ≡ starts sign (word_of word.now).text }
{
    let first = word.name.as_str().as_bytes().first()?;
    Some(*first == sign)
}

fn type_starts<A>(ty: &TypeRef<A>, sign: u8) -> Option<bool>
    requires { IsSign sign }
    ensures { result ≡ starts sign (printed_type (type_of ty.now)) }
{
    match &ty.kind {
        TypeKind::Int => Some(false),
        TypeKind::Boolean => Some(false),
        TypeKind::Named(None, name) => word_starts(name, sign),
        TypeKind::Named(Some(outer), _) => Some(word_starts(outer, sign).unwrap_or(false)),
    }
}

/// Whether the text of an expression starts with the sign; an empty one doesn't tell.
#[tactic(auto, unfolding(jr_ast::specs::View::expr_kind))]
fn expr_starts<A>(of: &Expr<A>, sign: u8) -> Option<bool>
    requires { IsSign sign }
    ensures { result ≡ starts sign (printed (expr_of of.now)) }
{
    match &of.kind {
        ExprKind::Int(_) => Some(false),
        ExprKind::Bool(_) => Some(false),
        ExprKind::Null => Some(false),
        ExprKind::Text(_) => Some(false),
        ExprKind::Simple(name) => word_starts(name, sign),
        ExprKind::Field(part, _) => Some(expr_starts(part, sign).unwrap_or(false)),
        ExprKind::SuperField(_) => Some(false),
        ExprKind::This => Some(false),
        ExprKind::ClassLit(ty) => Some(type_starts(ty, sign).unwrap_or(false)),
        ExprKind::Call(None, name, _) => Some(word_starts(name, sign).unwrap_or(false)),
        ExprKind::Call(Some(part), _, _) => Some(expr_starts(part, sign).unwrap_or(false)),
        ExprKind::SuperCall(_, _) => Some(false),
        ExprKind::New(_, _) => Some(false),
        ExprKind::Paren(_) => Some(false),
        ExprKind::Cast(_, _) => Some(false),
        ExprKind::Unary(UnOp::Plus, _) => Some(sign == b'+'),
        ExprKind::Unary(UnOp::Minus, _) => Some(sign == b'-'),
        ExprKind::Unary(UnOp::Not, _) => Some(false),
        ExprKind::Bump(BumpOp::PreInc, _) => Some(sign == b'+'),
        ExprKind::Bump(BumpOp::PreDec, _) => Some(sign == b'-'),
        ExprKind::Bump(BumpOp::PostInc, part) => {
            Some(expr_starts(part, sign).unwrap_or(sign == b'+'))
        }
        ExprKind::Bump(BumpOp::PostDec, part) => {
            Some(expr_starts(part, sign).unwrap_or(sign == b'-'))
        }
        ExprKind::Binary(_, left, _) => Some(expr_starts(left, sign).unwrap_or(false)),
        ExprKind::Assign(to, _) => Some(expr_starts(to, sign).unwrap_or(false)),
        ExprKind::Compound(_, to, _) => Some(expr_starts(to, sign).unwrap_or(false)),
    }
}

/// What stands in front of an operand's text (JLS 15.15.3, 15.15.4, 15.15.6): two signs of one kind
/// are kept apart.
pub(crate) fn before_operand<A>(op: UnOp, of: &Expr<A>) -> &'static str
    ensures { result.now ++ printed (expr_of of.now)
        ≡ printed_unary op (printed (expr_of of.now)) }
{
    match op {
        UnOp::Plus => {
            if expr_starts(of, b'+') == Some(true) {
                "+ "
            } else {
                "+"
            }
        }
        UnOp::Minus => {
            if expr_starts(of, b'-') == Some(true) {
                "- "
            } else {
                "-"
            }
        }
        UnOp::Not => "!",
    }
}
