//! The code of a method or constructor.
ghost use Rattle.std.specs.Prelude.{◌≡◌, ◌+◌, IfOk, Some, map, option_map, ⊤};
ghost use Rattle.jr_ast.specs.View.{
  args_of,
  member_of,
  modifier_of,
  param_of,
  stmts_of,
  type_of,
};
ghost use Rattle.jr_grammar.specs.Layout.{itself};
ghost use Rattle.jr_members.specs.PartView.{part_of};
ghost use Rattle.jr_cfg.specs.MemberRoutes as route;
ghost use Rattle.jr_bodies.specs.MemberCode as pure;
ghost use Rattle.jr_bodies.specs.CodeView.{code_of as seen};

use jr_ast::{Expr, Member, MemberKind, Modifier, Param, Stmt, TypeRef};
use jr_members::PartRef;
use jr_text::Span;
use std::alloc::AllocError;

/// The parameters and the statements of a method or constructor, and the number of the first
/// statement among the member's children.
pub struct Code<'a> {
    pub params: &'a [Param<Span>],
    pub list: &'a [Stmt<Span>],
    pub front: u32,
}

impl Copy for Code<'_> {}

impl Clone for Code<'_> {
    ghost is_clone = { λ x y. y ≡ x };

    ghost is_infallible = { λ _. ⊤ };

    fn clone(&self) -> Result<Self, AllocError> {
        Ok(*self)
    }
}

/// The number behind so many parts more. More parts than numbers don't fit any memory.
fn behind(number: u32, count: usize) -> Result<u32, AllocError>
    ensures { IfOk result (λ n. n ≡ number + count) }
{
    match u32::try_from(count) {
        Err(_) => Err(AllocError),
        Ok(count) => match number.checked_add(count) {
            None => Err(AllocError),
            Some(sum) => Ok(sum),
        },
    }
}

/// Where the parts stand that come behind modifiers, `words` other parts, and parameters.
fn front_of(words: u32, modifiers: usize, params: usize) -> Result<u32, AllocError>
    ensures { IfOk result (λ n. n ≡ words + modifiers + params) }
{
    let names = behind(words, modifiers)?;
    let front = behind(names, params)?;
    Ok(front)
}

/// How many parts a method's result and its name are.
fn words_of(result_type: &Option<TypeRef<Span>>) -> u32
    ensures { result ≡ route.words itself (option_map type_of result_type.now) }
{
    match result_type {
        None => 1,
        Some(_) => 2,
    }
}

/// How many arguments a written `super(..)` has.
fn count_args(args: &Option<Vec<Expr<Span>>>) -> usize
    ensures { result ≡ route.arguments itself (args_of args.now) }
{
    match args {
        None => 0,
        Some(args) => args.len(),
    }
}

/// Of a method (JLS 8.4).
fn method_code<'a>(
    modifiers: &[Modifier<Span>],
    result_type: &Option<TypeRef<Span>>,
    params: &'a [Param<Span>],
    list: &'a [Stmt<Span>],
) -> Result<Option<Code<'a>>, AllocError>
    ensures { IfOk result (λ o. option_map seen o ≡ Some (pure.method_code
        (map modifier_of modifiers.now) (option_map type_of result_type.now)
        (map param_of params.now) (stmts_of list.now))) }
{
    let front = front_of(words_of(result_type), modifiers.len(), params.len())?;
    Ok(Some(Code {
        params,
        list,
        front,
    }))
}

/// Of a constructor (JLS 8.8).
fn ctor_code<'a>(
    modifiers: &[Modifier<Span>],
    params: &'a [Param<Span>],
    args: &Option<Vec<Expr<Span>>>,
    list: &'a [Stmt<Span>],
) -> Result<Option<Code<'a>>, AllocError>
    ensures { IfOk result (λ o. option_map seen o ≡ Some (pure.ctor_code
        (map modifier_of modifiers.now) (map param_of params.now) (args_of args.now)
        (stmts_of list.now))) }
{
    let before = front_of(1, modifiers.len(), params.len())?;
    let front = behind(before, count_args(args))?;
    Ok(Some(Code {
        params,
        list,
        front,
    }))
}

#[tactic(auto, unfolding(jr_ast::specs::View::member_kind))]
fn code_of_member<'a>(member: &'a Member<Span>) -> Result<Option<Code<'a>>, AllocError>
    ensures { IfOk result (λ o. option_map seen o ≡ pure.code_of_member (member_of member.now)) }
{
    match &member.kind {
        MemberKind::Field { .. } => Ok(None),
        MemberKind::Method {
            modifiers,
            ret,
            params,
            body,
            ..
        } => method_code(modifiers, ret, params, body),
        MemberKind::Ctor {
            modifiers,
            params,
            parent_args,
            body,
            ..
        } => ctor_code(modifiers, params, parent_args, body),
        MemberKind::Inner(_) => Ok(None),
    }
}

/// The code of a part of a program, if it is a method or constructor. The only fault is want of
/// memory.
pub fn code_of<'a>(part: &PartRef<'a, Span>) -> Result<Option<Code<'a>>, AllocError>
    ensures { IfOk result (λ o. option_map seen o ≡ pure.code_of (part_of part.now)) }
{
    match part {
        PartRef::Head(_) => Ok(None),
        PartRef::Member(member) => code_of_member(member),
    }
}
