//! Members and classes as text (JLS 8).
ghost use Rattle.std.specs.Prelude.{◌≡◌, ◌++◌, codes, option_map, map};
ghost use Rattle.jr_ast.specs.MemberTree as tree;
ghost use Rattle.jr_ast.specs.View.{word_of, modifier_of, type_of, param_of, expr_of, args_of};
ghost use Rattle.jr_ast.specs.View.{stmts_of, class_of, member_of, members_of};
ghost use Rattle.jr_print.specs.Adds.{Adds};
ghost use Rattle.jr_print.specs.MemberText.{printed_params, printed_init, printed_result};
ghost use Rattle.jr_print.specs.MemberText.{printed_super, printed_extends, printed_class};
ghost use Rattle.jr_print.specs.MemberText.{printed_member, printed_members};
ghost use Rattle.jr_print.specs.StatementText.{printed_stmts};

use crate::exprs::{arguments, expr};
use crate::parts::{modifiers, params, put, ty, word};
use crate::stmts::stmts;
use jr_ast::{Class, Expr, Ident, Member, MemberKind, Param, Stmt, TypeRef};
use std::alloc::AllocError;

/// The initializer of a field, if there is one (JLS 8.3.2).
fn init<A>(out: &mut String, of: &Option<Expr<A>>) -> Result<(), AllocError>
    ensures { Adds result out.old out.new (printed_init (option_map expr_of of.now)) }
{
    match of {
        None => Ok(()),
        Some(of) => {
            put(out, " = ")?;
            expr(out, of)
        }
    }
}

/// A type, or `void` (JLS 8.4.5).
fn result_type<A>(out: &mut String, of: &Option<TypeRef<A>>) -> Result<(), AllocError>
    ensures { Adds result out.old out.new (printed_result (option_map type_of of.now)) }
{
    match of {
        None => put(out, "void"),
        Some(of) => ty(out, of),
    }
}

/// A written `super(..)` as a body's first statement, if there is one (JLS 8.8.7.1).
fn super_call<A>(out: &mut String, of: &Option<Vec<Expr<A>>>) -> Result<(), AllocError>
    ensures { Adds result out.old out.new (printed_super (args_of of.now)) }
{
    match of {
        None => Ok(()),
        Some(args) => {
            put(out, " super")?;
            arguments(out, args)?;
            put(out, ";")
        }
    }
}

/// The superclass of a class, if it is written (JLS 8.1.4).
fn extends<A>(out: &mut String, of: &Option<TypeRef<A>>) -> Result<(), AllocError>
    ensures { Adds result out.old out.new (printed_extends (option_map type_of of.now)) }
{
    match of {
        None => Ok(()),
        Some(of) => {
            put(out, " extends ")?;
            ty(out, of)
        }
    }
}

/// The name and the parameters of a method or constructor, up to the brace of its body.
fn signature<A>(out: &mut String, name: &Ident<A>, list: &[Param<A>]) -> Result<(), AllocError>
    ensures { Adds result out.old out.new
        ((word_of name.now).text ++ codes "(" ++ printed_params (map param_of list.now)
        ++ codes ") {") }
{
    word(out, name)?;
    put(out, "(")?;
    params(out, list)?;
    put(out, ") {")
}

/// What stands in the braces of a body, and its last brace.
fn body<A>(out: &mut String, parts: &[Stmt<A>]) -> Result<(), AllocError>
    ensures { Adds result out.old out.new (printed_stmts (stmts_of parts.now) ++ codes " }") }
{
    stmts(out, parts)?;
    put(out, " }")
}

/// The text of a member is put behind `out`.
#[cycle(member_texts)]
#[tactic(auto, unfolding(jr_ast::specs::View::member_kind))]
pub(crate) fn member<A>(out: &mut String, of: &Member<A>) -> Result<(), AllocError>
    ensures { Adds result out.old out.new (printed_member (member_of of.now)) }
{
    match &of.kind {
        MemberKind::Field {
            modifiers: words,
            ty: of_type,
            name,
            init: value,
        } => {
            modifiers(out, words)?;
            ty(out, of_type)?;
            put(out, " ")?;
            word(out, name)?;
            init(out, value)?;
            put(out, ";")
        }
        MemberKind::Method {
            modifiers: words,
            ret,
            name,
            params: list,
            body: parts,
        } => {
            modifiers(out, words)?;
            result_type(out, ret)?;
            put(out, " ")?;
            signature(out, name, list)?;
            body(out, parts)
        }
        MemberKind::Ctor {
            modifiers: words,
            name,
            params: list,
            parent_args,
            body: parts,
        } => {
            modifiers(out, words)?;
            signature(out, name, list)?;
            super_call(out, parent_args)?;
            body(out, parts)
        }
        MemberKind::Inner(of) => class(out, of),
    }
}

/// The text of a class is put behind `out`.
#[cycle(member_texts)]
fn class<A>(out: &mut String, of: &Class<A>) -> Result<(), AllocError>
    ensures { Adds result out.old out.new (printed_class (class_of of.now)) }
{
    modifiers(out, &of.modifiers)?;
    put(out, "class ")?;
    word(out, &of.name)?;
    extends(out, &of.parent)?;
    put(out, " {")?;
    members(out, &of.members)?;
    put(out, " }")
}

/// Members, each with a space in front of it.
#[cycle(member_texts)]
fn members<A>(out: &mut String, parts: &[Member<A>]) -> Result<(), AllocError>
    ensures { Adds result out.old out.new (printed_members (members_of parts.now)) }
{
    for part in parts {
        put(out, " ")?;
        member(out, part)?;
    }
    Ok(())
}
