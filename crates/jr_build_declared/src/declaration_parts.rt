//! The parts of declarations, from the trees that write them.
ghost use Rattle.std.specs.Prelude.{◌≡◌, IfOk, map, option_map, [], ◌∷◌, ◌&&◌};
ghost use Rattle.jr_ast.specs.View.{word_of, modifier_of, type_of, param_of, expr_of, exprs_of};
ghost use Rattle.jr_ast.specs.View.{members_of};
ghost use Rattle.jr_table.specs.DeclaredItems.{word_at, written, words, param_declaration, init_declaration};
ghost use Rattle.jr_table.specs.DeclaredItems.{is_minus, is_number, is_object, has_none, is_simple};
ghost use Rattle.jr_table.specs.DeclaredItems.{writes_ctor};
ghost use Rattle.jr_build_declared.specs.DeclaredView.{written_of, param_declaration_of, init_declaration_of};
ghost use Rattle.jr_build_declared.specs.Fitting.{begins_by, WordFits, TypeFits, MaybeTypeFits};
ghost use Rattle.jr_build_declared.specs.Fitting.{InitFits, ParamFits, ParamsFit};

use crate::declarations::{DeclaredInit, DeclaredParam, Written};
use jr_ast::{
    Expr, ExprKind, Ident, Member, MemberKind, ModWord, Modifier, Param, TypeKind, TypeRef, UnOp,
};
use jr_text::Mark;
use std::alloc::{AllocError, Global};

/// Where a node begins, if its parent begins at the base.
pub fn begin<A: Mark>(mark: &A, base: u32) -> u32
    requires { A.fits_at mark.now base }
    ensures { result ≡ begins_by A.span_from mark.now base }
{
    mark.span(base).from
}

/// The place of a word.
pub fn word_place<A: Mark>(word: &Ident<A>, base: u32) -> u32
    requires { WordFits (begins_by A.span_from) A.fits_at base (word_of word.now) }
    ensures { result ≡ word_at (begins_by A.span_from) base (word_of word.now) }
{
    begin(&word.mark, base)
}

/// A type as written.
pub fn written_type<'a, A: Mark>(ty: &'a TypeRef<A>, base: u32) -> Written<'a>
    requires { TypeFits (begins_by A.span_from) A.fits_at base (type_of ty.now) }
    ensures { written_of result ≡ written (begins_by A.span_from) base (type_of ty.now) }
{
    match &ty.kind {
        TypeKind::Int => Written::Int,
        TypeKind::Boolean => Written::Boolean,
        TypeKind::Named(outer, name) => Written::Named {
            at: begin(&ty.mark, base),
            outer: maybe_text(outer),
            name: name.name.as_str(),
        },
    }
}

/// The text of a word, if there is one.
fn maybe_text<'a, A>(word: &'a Option<Ident<A>>) -> Option<&'a str>
    ensures { option_map (λ n. n.now) result
        ≡ option_map (λ w. w.text) (option_map word_of word.now) }
{
    match word {
        None => None,
        Some(word) => Some(word.name.as_str()),
    }
}

/// A type as written, if one is.
pub fn maybe_written<'a, A: Mark>(ty: &'a Option<TypeRef<A>>, base: u32) -> Option<Written<'a>>
    requires { MaybeTypeFits (begins_by A.span_from) A.fits_at base (option_map type_of ty.now) }
    ensures { option_map written_of result
        ≡ option_map (written (begins_by A.span_from) base) (option_map type_of ty.now) }
{
    match ty {
        None => None,
        Some(ty) => Some(written_type(ty, base)),
    }
}

/// The words of modifiers.
pub fn mod_words<A: Mark>(
    alloc: Global,
    modifiers: &[Modifier<A>],
) -> Result<Vec<ModWord>, AllocError>
    ensures { IfOk result (λ v. v.items
        ≡ words (begins_by A.span_from) (map modifier_of modifiers.now)) }
{
    let mut list = Vec::new(alloc);
    for modifier in modifiers {
        list.push(modifier.word)?;
    }
    Ok(list)
}

/// The declaration of a parameter.
fn param_at<'a, A: Mark>(param: &'a Param<A>, base: u32) -> DeclaredParam<'a>
    requires { ParamFits (begins_by A.span_from) A.fits_at base (param_of param.now) }
    ensures { param_declaration_of result ≡ param_declaration (begins_by A.span_from) base (param_of param.now) }
{
    let here = begin(&param.mark, base);
    DeclaredParam {
        at: word_place(&param.name, here),
        name: param.name.name.as_str(),
        written: written_type(&param.ty, here),
    }
}

/// The declarations of parameters.
pub fn param_declarations<'a, A: Mark>(
    alloc: Global,
    params: &'a [Param<A>],
    base: u32,
) -> Result<Vec<DeclaredParam<'a>>, AllocError>
    requires { ParamsFit (begins_by A.span_from) A.fits_at base (map param_of params.now) }
    ensures { IfOk result (λ v. map param_declaration_of v.items
        ≡ map (param_declaration (begins_by A.span_from) base) (map param_of params.now)) }
{
    let mut declarations = Vec::new(alloc);
    for param in params {
        declarations.push(param_at(param, base))?;
    }
    Ok(declarations)
}

/// Whether it is the type `Object`.
fn names_object<A: Mark>(ty: &Box<TypeRef<A>>) -> bool
    ensures { result ≡ is_object (begins_by A.span_from) (type_of ty.now.value) }
{
    match &ty.kind {
        TypeKind::Named(None, name) => name.name.as_str() == "Object",
        _ => false,
    }
}

/// Whether it is an int literal.
#[tactic(auto, unfolding(jr_ast::specs::View::expr_kind))]
fn is_literal<A: Mark>(of: &Expr<A>) -> bool
    ensures { result ≡ is_number (begins_by A.span_from) (expr_of of.now) }
{
    match &of.kind {
        ExprKind::Int(_) => true,
        _ => false,
    }
}

/// Whether it is `-` before an int literal.
fn is_negative<A: Mark>(op: UnOp, operand: &Expr<A>) -> bool
    ensures { result ≡ (is_minus (begins_by A.span_from) op
        && is_number (begins_by A.span_from) (expr_of operand.now)) }
{
    match op {
        UnOp::Minus => is_literal(operand),
        UnOp::Plus | UnOp::Not => false,
    }
}

/// Whether a static field's initializer may have this form.
#[tactic(auto, unfolding(jr_ast::specs::View::expr_kind))]
fn is_simple_init<A: Mark>(of: &Expr<A>) -> bool
    ensures { result ≡ is_simple (begins_by A.span_from) (expr_of of.now) }
{
    match &of.kind {
        ExprKind::Int(_) => true,
        ExprKind::Bool(_) => true,
        ExprKind::Null => true,
        ExprKind::Text(_) => true,
        ExprKind::Unary(op, operand) => is_negative(*op, operand),
        ExprKind::New(ty, args) => names_object(ty) & args.is_empty(),
        _ => false,
    }
}

/// The declaration of an initializer, if there is one.
pub fn maybe_init<A: Mark>(init: &Option<Expr<A>>, base: u32) -> Option<DeclaredInit>
    requires { InitFits (begins_by A.span_from) A.fits_at base (option_map expr_of init.now) }
    ensures { option_map init_declaration_of result
        ≡ option_map (init_declaration (begins_by A.span_from) base) (option_map expr_of init.now) }
{
    match init {
        None => None,
        Some(of) => Some(DeclaredInit {
            at: begin(&of.mark, base),
            is_simple: is_simple_init(of),
        }),
    }
}

/// Whether a member is a constructor.
#[tactic(auto, unfolding(jr_ast::specs::View::member_kind))]
fn is_ctor<A: Mark>(member: &Member<A>) -> bool
    ensures { result ≡ writes_ctor (begins_by A.span_from) (members_of (member.now ∷ [])) }
{
    match &member.kind {
        MemberKind::Ctor { .. } => true,
        _ => false,
    }
}

/// Whether a constructor is among the members.
pub fn has_ctor<A: Mark>(members: &[Member<A>]) -> bool
    ensures { result ≡ writes_ctor (begins_by A.span_from) (members_of members.now) }
{
    for member in members {
        if is_ctor(member) {
            return true;
        }
    }
    false
}
