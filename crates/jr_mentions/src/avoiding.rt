//! Whether a member refers to no variable and calls no method by one of the names.
ghost use Rattle.std.specs.Prelude.{◌≡◌, ◌↔◌, IsTrue, option_map};
ghost use Rattle.jr_ast.specs.View.{word_of, expr_of, exprs_of, target_of, args_of};
ghost use Rattle.jr_ast.specs.View.{stmt_of, stmts_of, else_of, member_of};
ghost use Rattle.jr_table.specs.KeyView.{member_key_of};
ghost use Rattle.jr_mentions.specs.Apart.{IsCleanMember};
ghost use Rattle.jr_mentions.specs.Avoids.{AvoidsMember};
ghost use Rattle.jr_mentions.specs.ApartView.{names_in};
ghost use Rattle.jr_mentions.specs.AvoidTests as pure;
ghost use Rattle.jr_mentions.specs.AvoidTests.{is_other, avoids_exp, avoids_target, avoids_row};
ghost use Rattle.jr_mentions.specs.AvoidTests.{avoids_maybe, avoids_args, avoids_stmt, avoids_else};
ghost use Rattle.jr_mentions.specs.AvoidTests.{avoids_stmts, avoids_member};

use crate::names::Apart;
use jr_ast::{Expr, ExprKind, Ident, Member, MemberKind, Stmt, StmtKind};
use jr_table::MemberKey;

fn spares_word<A>(apart: &Apart<'_>, name: &Ident<A>) -> bool
    ensures { result ≡ is_other (names_in apart.now) (word_of name.now) }
{
    !apart.has(&name.name)
}

#[cycle(expr_walk)]
#[tactic(auto, unfolding(jr_ast::specs::View::expr_kind, crate::specs::AvoidTests::avoids_exp))]
fn spares_expr<A>(apart: &Apart<'_>, of: &Expr<A>) -> bool
    ensures { result ≡ avoids_exp (names_in apart.now) (expr_of of.now) }
{
    match &of.kind {
        ExprKind::Int(_) => true,
        ExprKind::Bool(_) => true,
        ExprKind::Null => true,
        ExprKind::Text(_) => true,
        ExprKind::Simple(name) => spares_word(apart, name),
        ExprKind::Field(part, name) => spares_expr(apart, part) & spares_word(apart, name),
        ExprKind::SuperField(name) => spares_word(apart, name),
        ExprKind::This => true,
        ExprKind::ClassLit(_) => true,
        ExprKind::Call(on, name, args) => spares_target(apart, on)
            & spares_word(apart, name)
            & spares_row(apart, args),
        ExprKind::SuperCall(name, args) => spares_word(apart, name) & spares_row(apart, args),
        ExprKind::New(_, args) => spares_row(apart, args),
        ExprKind::Paren(part) => spares_expr(apart, part),
        ExprKind::Cast(_, part) => spares_expr(apart, part),
        ExprKind::Unary(_, part) => spares_expr(apart, part),
        ExprKind::Bump(_, part) => spares_expr(apart, part),
        ExprKind::Binary(_, left, right) => spares_expr(apart, left) & spares_expr(apart, right),
        ExprKind::Assign(to, value) => spares_expr(apart, to) & spares_expr(apart, value),
        ExprKind::Compound(_, to, value) => spares_expr(apart, to) & spares_expr(apart, value),
    }
}

#[cycle(expr_walk)]
#[tactic(auto, unfolding(crate::specs::AvoidTests::avoids_target))]
fn spares_target<A>(apart: &Apart<'_>, of: &Option<Box<Expr<A>>>) -> bool
    ensures { result ≡ avoids_target (names_in apart.now) (target_of of.now) }
{
    match of {
        None => true,
        Some(of) => spares_expr(apart, of),
    }
}

#[cycle(expr_walk)]
fn spares_row<A>(apart: &Apart<'_>, args: &[Expr<A>]) -> bool
    ensures { result ≡ avoids_row (names_in apart.now) (exprs_of args.now) }
{
    for arg in args {
        if !spares_expr(apart, arg) {
            return false;
        }
    }
    true
}

fn spares_maybe<A>(apart: &Apart<'_>, of: &Option<Expr<A>>) -> bool
    ensures { result ≡ avoids_maybe (names_in apart.now) (option_map expr_of of.now) }
{
    match of {
        None => true,
        Some(of) => spares_expr(apart, of),
    }
}

#[cycle(stmt_walk)]
#[tactic(auto, unfolding(jr_ast::specs::View::stmt_kind, crate::specs::AvoidTests::avoids_stmt))]
fn spares_stmt<A>(apart: &Apart<'_>, of: &Stmt<A>) -> bool
    ensures { result ≡ avoids_stmt (names_in apart.now) (stmt_of of.now) }
{
    match &of.kind {
        StmtKind::Local { init, .. } => spares_expr(apart, init),
        StmtKind::Eval(of) => spares_expr(apart, of),
        StmtKind::If(test, yes, no) => {
            spares_expr(apart, test) & spares_stmt(apart, yes) & spares_else(apart, no)
        }
        StmtKind::While(test, body) => spares_expr(apart, test) & spares_stmt(apart, body),
        StmtKind::Return(value) => spares_maybe(apart, value),
        StmtKind::Block(body) => spares_stmts(apart, body),
        StmtKind::Sync(lock, body) => spares_expr(apart, lock) & spares_stmts(apart, body),
        StmtKind::Empty => true,
    }
}

#[cycle(stmt_walk)]
#[tactic(auto, unfolding(crate::specs::AvoidTests::avoids_else))]
fn spares_else<A>(apart: &Apart<'_>, of: &Option<Box<Stmt<A>>>) -> bool
    ensures { result ≡ avoids_else (names_in apart.now) (else_of of.now) }
{
    match of {
        None => true,
        Some(of) => spares_stmt(apart, of),
    }
}

#[cycle(stmt_walk)]
fn spares_stmts<A>(apart: &Apart<'_>, body: &[Stmt<A>]) -> bool
    ensures { result ≡ avoids_stmts (names_in apart.now) (stmts_of body.now) }
{
    for of in body {
        if !spares_stmt(apart, of) {
            return false;
        }
    }
    true
}

fn spares_args<A>(apart: &Apart<'_>, args: &Option<Vec<Expr<A>>>) -> bool
    ensures { result ≡ avoids_args (names_in apart.now) (args_of args.now) }
{
    match args {
        None => true,
        Some(args) => spares_row(apart, args),
    }
}

#[tactic(auto, unfolding(jr_ast::specs::View::member_kind))]
fn spares_member<A>(apart: &Apart<'_>, of: &Member<A>) -> bool
    ensures { result ≡ avoids_member (names_in apart.now) (member_of of.now) }
{
    match &of.kind {
        MemberKind::Field { init, .. } => spares_maybe(apart, init),
        MemberKind::Method { body, .. } => spares_stmts(apart, body),
        MemberKind::Ctor {
            parent_args,
            body,
            ..
        } => spares_args(apart, parent_args) & spares_stmts(apart, body),
        MemberKind::Inner(_) => false,
    }
}

/// Whether it is no member class.
#[tactic(auto, unfolding(jr_ast::specs::View::member_kind))]
fn is_no_class<A>(of: &Member<A>) -> bool
    ensures { result ≡ pure.is_no_class (member_of of.now) }
{
    match &of.kind {
        MemberKind::Field { .. } => true,
        MemberKind::Method { .. } => true,
        MemberKind::Ctor { .. } => true,
        MemberKind::Inner(_) => false,
    }
}

impl Apart<'_> {
    /// Whether a member refers to no variable and calls no method by one of the names. Of a member
    /// class, which is a part of its own, the answer is `false`.
    pub fn spares<A>(&self, of: &Member<A>) -> bool
        ensures { IsTrue result ↔ AvoidsMember (names_in self.now) (member_of of.now) }
    {
        if self.is_none() {
            is_no_class(of)
        } else {
            spares_member(self, of)
        }
    }

    /// Whether it is no field and no method that has one of the names.
    pub fn spares_key(&self, key: &MemberKey) -> bool
        ensures { IsTrue result ↔ IsCleanMember (names_in self.now) (member_key_of key.now) }
    {
        match key {
            MemberKey::Head(_) => true,
            MemberKey::Field(key) => !self.has(&key.name),
            MemberKey::Method(key) => !self.has(&key.name),
            MemberKey::Ctor(_) => true,
        }
    }
}
