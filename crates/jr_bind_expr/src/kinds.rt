//! Tests of types by number, which may be missing.
ghost use Rattle.std.specs.Prelude.{◌≡◌};
ghost use Rattle.jr_table.specs.Entries.{entries_of};
ghost use Rattle.jr_bind_expr.specs.Numbered as pure;

use jr_ast::{BinOp, UnOp};
use jr_table::{Kind, Table};

pub(crate) fn is_int(kind: Option<Kind>) -> bool
    ensures { result ≡ pure.is_int kind }
{
    match kind {
        Some(Kind::Int) => true,
        _ => false,
    }
}

pub fn is_boolean(kind: Option<Kind>) -> bool
    ensures { result ≡ pure.is_boolean kind }
{
    match kind {
        Some(Kind::Boolean) => true,
        _ => false,
    }
}

pub(crate) fn is_void(kind: Option<Kind>) -> bool
    ensures { result ≡ pure.is_void kind }
{
    match kind {
        Some(Kind::Void) => true,
        _ => false,
    }
}

fn is_reference(kind: Kind) -> bool
    ensures { result ≡ pure.is_reference kind }
{
    match kind {
        Kind::Null | Kind::Class(_) => true,
        Kind::Int | Kind::Boolean | Kind::Void => false,
    }
}

/// The class of a type.
pub fn class_in(kind: Option<Kind>) -> Option<u32>
    ensures { result ≡ pure.class_in kind }
{
    match kind {
        Some(Kind::Class(class)) => Some(class),
        _ => None,
    }
}

/// The class of a name, or else that of a value's type (JLS 15.11, 15.12.1).
pub(crate) fn on_class(class: Option<u32>, kind: Option<Kind>) -> Option<u32>
    ensures { result ≡ pure.on_class class kind }
{
    match class {
        None => class_in(kind),
        Some(_) => class,
    }
}

/// Whether a value of the one type may be assigned to a variable of the other (JLS 5.2).
pub fn suits(table: &Table, from: Option<Kind>, to: Option<Kind>) -> bool
    ensures { result ≡ pure.suits (entries_of table.now) from to }
{
    let Some(from) = from else {
        return false;
    };
    let Some(to) = to else {
        return false;
    };
    table.is_assignable_at(from, to)
}

/// Two classes or nulls, either of which may be assigned to the other.
fn are_related(table: &Table, left: Kind, right: Kind) -> bool
    ensures { result ≡ pure.comparable (entries_of table.now) (Some left) (Some right) }
{
    let up = table.is_assignable_at(left, right);
    let down = table.is_assignable_at(right, left);
    is_reference(left) & is_reference(right) & (up | down)
}

/// Whether values of the two types may be compared as references (JLS 15.21.3).
pub(crate) fn comparable(table: &Table, left: Option<Kind>, right: Option<Kind>) -> bool
    ensures { result ≡ pure.comparable (entries_of table.now) left right }
{
    let Some(left) = left else {
        return false;
    };
    let Some(right) = right else {
        return false;
    };
    are_related(table, left, right)
}

pub(crate) fn are_int(left: Option<Kind>, right: Option<Kind>) -> bool
    ensures { result ≡ pure.are_int left right }
{
    is_int(left) & is_int(right)
}

fn are_boolean(left: Option<Kind>, right: Option<Kind>) -> bool
    ensures { result ≡ pure.are_boolean left right }
{
    is_boolean(left) & is_boolean(right)
}

fn equates(table: &Table, left: Option<Kind>, right: Option<Kind>) -> bool
    ensures { result ≡ pure.equates (entries_of table.now) left right }
{
    are_int(left, right) | (are_boolean(left, right) | comparable(table, left, right))
}

/// Whether an operator takes operands of the two types (JLS 15.17 to 15.24).
pub(crate) fn takes(table: &Table, op: BinOp, left: Option<Kind>, right: Option<Kind>) -> bool
    ensures { result ≡ pure.takes (entries_of table.now) op left right }
{
    match op {
        BinOp::Or | BinOp::And => are_boolean(left, right),
        BinOp::Eq | BinOp::Ne => equates(table, left, right),
        BinOp::Lt | BinOp::Gt | BinOp::Le | BinOp::Ge => are_int(left, right),
        BinOp::Add | BinOp::Sub | BinOp::Mul | BinOp::Div | BinOp::Rem => are_int(left, right),
    }
}

/// Whether a sign or `!` takes an operand of the type (JLS 15.15.3 to 15.15.6).
pub(crate) fn takes_one(op: UnOp, kind: Option<Kind>) -> bool
    ensures { result ≡ pure.takes_one op kind }
{
    match op {
        UnOp::Plus | UnOp::Minus => is_int(kind),
        UnOp::Not => is_boolean(kind),
    }
}

pub(crate) fn sign_kind(op: UnOp) -> Kind
    ensures { result ≡ pure.sign_kind op }
{
    match op {
        UnOp::Plus | UnOp::Minus => Kind::Int,
        UnOp::Not => Kind::Boolean,
    }
}

/// The type of a binary operator's expression.
pub(crate) fn operator_kind(op: BinOp) -> Kind
    ensures { result ≡ pure.operator_kind op }
{
    match op {
        BinOp::Add | BinOp::Sub | BinOp::Mul | BinOp::Div | BinOp::Rem => Kind::Int,
        BinOp::Or | BinOp::And | BinOp::Eq | BinOp::Ne => Kind::Boolean,
        BinOp::Lt | BinOp::Gt | BinOp::Le | BinOp::Ge => Kind::Boolean,
    }
}
