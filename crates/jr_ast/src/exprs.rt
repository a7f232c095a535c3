//! Expressions (JLS 15).
ghost use Rattle.std.specs.Prelude.{◌≡◌};
ghost use Rattle.jr_ast.specs.Tree as tree;
ghost use Rattle.jr_ast.specs.View.{word_of, type_of, expr_of, exprs_of};

use crate::names::{Ident, Name};
use crate::operators::{BinOp, BumpOp, UnOp};
use crate::parts::TypeRef;

/// An expression (JLS 15).
#[cycle(expr)]
#[derive(Drop)]
pub struct Expr<A> {
    pub mark: A,
    pub kind: ExprKind<A>,
}

/// The kinds of expressions. Types of `new` and of casts, which are few, have places of their own, so
/// that all others take less room.
#[cycle(expr)]
#[derive(Drop)]
pub enum ExprKind<A> {
    Int(u32),
    Bool(bool),
    Null,
    /// A string as written, without its quotation marks.
    Text(Name),
    Simple(Ident<A>),
    Field(Box<Expr<A>>, Ident<A>),
    SuperField(Ident<A>),
    This,
    ClassLit(TypeRef<A>),
    /// What the call is made on, if anything is written, then the method and the arguments.
    Call(Option<Box<Expr<A>>>, Ident<A>, Vec<Expr<A>>),
    SuperCall(Ident<A>, Vec<Expr<A>>),
    New(Box<TypeRef<A>>, Vec<Expr<A>>),
    Paren(Box<Expr<A>>),
    Cast(Box<TypeRef<A>>, Box<Expr<A>>),
    Unary(UnOp, Box<Expr<A>>),
    Bump(BumpOp, Box<Expr<A>>),
    Binary(BinOp, Box<Expr<A>>, Box<Expr<A>>),
    Assign(Box<Expr<A>>, Box<Expr<A>>),
    Compound(BinOp, Box<Expr<A>>, Box<Expr<A>>),
}

impl<A> Expr<A> {
    /// An integer literal (JLS 3.10.1).
    #[tactic(auto, unfolding(crate::specs::View::expr_kind))]
    pub fn number(mark: A, value: u32) -> Expr<A>
        ensures { expr_of result ≡ tree.number mark value }
    {
        Expr {
            mark,
            kind: ExprKind::Int(value),
        }
    }

    /// `true` or `false` (JLS 3.10.3).
    #[tactic(auto, unfolding(crate::specs::View::expr_kind))]
    pub fn truth(mark: A, value: bool) -> Expr<A>
        ensures { expr_of result ≡ tree.truth mark value }
    {
        Expr {
            mark,
            kind: ExprKind::Bool(value),
        }
    }

    /// `null` (JLS 3.10.7).
    #[tactic(auto, unfolding(crate::specs::View::expr_kind))]
    pub fn null(mark: A) -> Expr<A>
        ensures { expr_of result ≡ tree.null mark }
    {
        Expr {
            mark,
            kind: ExprKind::Null,
        }
    }

    /// A string as written, without its quotation marks (JLS 3.10.5).
    #[tactic(auto, unfolding(crate::specs::View::expr_kind))]
    pub fn string(mark: A, text: Name) -> Expr<A>
        ensures { expr_of result ≡ tree.string mark text }
    {
        Expr {
            mark,
            kind: ExprKind::Text(text),
        }
    }

    /// A simple name (JLS 6.5.6.1).
    #[tactic(auto, unfolding(crate::specs::View::expr_kind))]
    pub fn simple(mark: A, name: Ident<A>) -> Expr<A>
        ensures { expr_of result ≡ tree.name mark (word_of name) }
    {
        Expr {
            mark,
            kind: ExprKind::Simple(name),
        }
    }

    /// `of.name` (JLS 15.11, 6.5.6.2).
    #[tactic(auto, unfolding(crate::specs::View::expr_kind))]
    pub fn field(mark: A, of: Box<Expr<A>>, name: Ident<A>) -> Expr<A>
        ensures { expr_of result ≡ tree.field mark (expr_of of.value) (word_of name) }
    {
        Expr {
            mark,
            kind: ExprKind::Field(of, name),
        }
    }

    /// `super.name` (JLS 15.11.2).
    #[tactic(auto, unfolding(crate::specs::View::expr_kind))]
    pub fn super_field(mark: A, name: Ident<A>) -> Expr<A>
        ensures { expr_of result ≡ tree.super_field mark (word_of name) }
    {
        Expr {
            mark,
            kind: ExprKind::SuperField(name),
        }
    }

    /// `this` (JLS 15.8.3).
    #[tactic(auto, unfolding(crate::specs::View::expr_kind))]
    pub fn this(mark: A) -> Expr<A>
        ensures { expr_of result ≡ tree.this mark }
    {
        Expr {
            mark,
            kind: ExprKind::This,
        }
    }

    /// `ty.class` (JLS 15.8.2).
    #[tactic(auto, unfolding(crate::specs::View::expr_kind))]
    pub fn class_literal(mark: A, ty: TypeRef<A>) -> Expr<A>
        ensures { expr_of result ≡ tree.class_literal mark (type_of ty) }
    {
        Expr {
            mark,
            kind: ExprKind::ClassLit(ty),
        }
    }

    /// `name(args)` (JLS 15.12).
    #[tactic(auto, unfolding(crate::specs::View::expr_kind))]
    pub fn call(mark: A, name: Ident<A>, args: Vec<Expr<A>>) -> Expr<A>
        ensures { expr_of result ≡ tree.call mark tree.no_target (word_of name)
            (exprs_of args.items) }
    {
        Expr {
            mark,
            kind: ExprKind::Call(None, name, args),
        }
    }

    /// `target.name(args)` (JLS 15.12).
    #[tactic(auto, unfolding(crate::specs::View::expr_kind))]
    pub fn call_on(mark: A, target: Box<Expr<A>>, name: Ident<A>, args: Vec<Expr<A>>) -> Expr<A>
        ensures { expr_of result ≡ tree.call mark (tree.on (expr_of target.value)) (word_of name)
            (exprs_of args.items) }
    {
        Expr {
            mark,
            kind: ExprKind::Call(Some(target), name, args),
        }
    }

    /// `super.name(args)` (JLS 15.12).
    #[tactic(auto, unfolding(crate::specs::View::expr_kind))]
    pub fn super_call(mark: A, name: Ident<A>, args: Vec<Expr<A>>) -> Expr<A>
        ensures { expr_of result ≡ tree.super_call mark (word_of name) (exprs_of args.items) }
    {
        Expr {
            mark,
            kind: ExprKind::SuperCall(name, args),
        }
    }

    /// `new ty(args)` (JLS 15.9).
    #[tactic(auto, unfolding(crate::specs::View::expr_kind))]
    pub fn create(mark: A, ty: Box<TypeRef<A>>, args: Vec<Expr<A>>) -> Expr<A>
        ensures { expr_of result ≡ tree.create mark (type_of ty.value) (exprs_of args.items) }
    {
        Expr {
            mark,
            kind: ExprKind::New(ty, args),
        }
    }

    /// `(inner)` (JLS 15.8.5).
    #[tactic(auto, unfolding(crate::specs::View::expr_kind))]
    pub fn paren(mark: A, inner: Box<Expr<A>>) -> Expr<A>
        ensures { expr_of result ≡ tree.paren mark (expr_of inner.value) }
    {
        Expr {
            mark,
            kind: ExprKind::Paren(inner),
        }
    }

    /// `(ty) of` (JLS 15.16).
    #[tactic(auto, unfolding(crate::specs::View::expr_kind))]
    pub fn cast(mark: A, ty: Box<TypeRef<A>>, of: Box<Expr<A>>) -> Expr<A>
        ensures { expr_of result ≡ tree.cast mark (type_of ty.value) (expr_of of.value) }
    {
        Expr {
            mark,
            kind: ExprKind::Cast(ty, of),
        }
    }

    /// A sign or `!` before its operand (JLS 15.15.3, 15.15.4, 15.15.6).
    #[tactic(auto, unfolding(crate::specs::View::expr_kind))]
    pub fn unary(mark: A, op: UnOp, of: Box<Expr<A>>) -> Expr<A>
        ensures { expr_of result ≡ tree.unary mark op (expr_of of.value) }
    {
        Expr {
            mark,
            kind: ExprKind::Unary(op, of),
        }
    }

    /// `++` or `--` before or behind its operand (JLS 15.14.2, 15.14.3, 15.15.1, 15.15.2).
    #[tactic(auto, unfolding(crate::specs::View::expr_kind))]
    pub fn bump(mark: A, op: BumpOp, of: Box<Expr<A>>) -> Expr<A>
        ensures { expr_of result ≡ tree.bump mark op (expr_of of.value) }
    {
        Expr {
            mark,
            kind: ExprKind::Bump(op, of),
        }
    }

    /// `left op right` (JLS 15.17 to 15.24).
    #[tactic(auto, unfolding(crate::specs::View::expr_kind))]
    pub fn binary(mark: A, op: BinOp, left: Box<Expr<A>>, right: Box<Expr<A>>) -> Expr<A>
        ensures { expr_of result ≡ tree.binary mark op (expr_of left.value) (expr_of right.value) }
    {
        Expr {
            mark,
            kind: ExprKind::Binary(op, left, right),
        }
    }

    /// `to = value` (JLS 15.26.1).
    #[tactic(auto, unfolding(crate::specs::View::expr_kind))]
    pub fn assign(mark: A, to: Box<Expr<A>>, value: Box<Expr<A>>) -> Expr<A>
        ensures { expr_of result ≡ tree.assign mark (expr_of to.value) (expr_of value.value) }
    {
        Expr {
            mark,
            kind: ExprKind::Assign(to, value),
        }
    }

    /// `to op= value` (JLS 15.26.2).
    #[tactic(auto, unfolding(crate::specs::View::expr_kind))]
    pub fn compound(mark: A, op: BinOp, to: Box<Expr<A>>, value: Box<Expr<A>>) -> Expr<A>
        ensures { expr_of result ≡ tree.compound mark op (expr_of to.value) (expr_of value.value) }
    {
        Expr {
            mark,
            kind: ExprKind::Compound(op, to, value),
        }
    }
}
