//! What stands before the parts of a member that are read by machines of their own.
use crate::leads::Lead;
use jr_ast::{Expr, Ident, Member, Param, Stmt, TypeRef};
use jr_text::Span;

/// A field or method up to its name (JLS 8.3, 8.4).
#[derive(Drop)]
pub struct MemberHead {
    pub lead: Lead,
    /// No result is `void`.
    pub result: Option<TypeRef<Span>>,
    pub name: Ident<Span>,
}

/// A constructor up to its name (JLS 8.8).
#[derive(Drop)]
pub struct ConstructorHead {
    pub lead: Lead,
    pub name: Ident<Span>,
}

/// A field up to its `=` (JLS 8.3).
#[derive(Drop)]
pub struct FieldHead {
    pub lead: Lead,
    pub ty: TypeRef<Span>,
    pub name: Ident<Span>,
}

/// A constructor up to its body (JLS 8.8).
#[derive(Drop)]
pub struct Constructor {
    pub lead: Lead,
    pub name: Ident<Span>,
    pub params: Vec<Param<Span>>,
}

/// What stands before parameters.
#[derive(Drop)]
pub enum Head {
    Method(Box<MemberHead>),
    Constructor(Box<ConstructorHead>),
}

/// What stands before the statements of a body; of a constructor also the arguments of a written
/// `super(..)`, if there is one.
#[derive(Drop)]
pub enum Body {
    Method(Box<MemberHead>, Vec<Param<Span>>),
    Constructor(Box<Constructor>, Option<Vec<Expr<Span>>>),
}
