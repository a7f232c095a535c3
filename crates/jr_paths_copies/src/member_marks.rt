//! A copy of a tree with other marks: members and classes.
ghost use Rattle.std.specs.Prelude.{◌≡◌, IfOk, option_map, map};
ghost use Rattle.std.specs.Fn.{FnReturnsAt};
ghost use Rattle.jr_paths_copies.specs.Same as same;
ghost use Rattle.jr_ast.specs.declared.members.Class.{out-Class};
ghost use Rattle.jr_ast.specs.MemberTree as tree;
ghost use Rattle.jr_ast.specs.View.{word_of, modifier_of, type_of, param_of, expr_of, args_of};
ghost use Rattle.jr_ast.specs.View.{stmts_of, class_of, member_of, members_of};

use crate::expr_marks::{maybe_args, maybe_expr};
use crate::made::{Made, push_made};
use crate::marks::{mark_by, maybe_ty, modifiers, params, ty, word};
use crate::stmt_marks::stmts;
use jr_ast::{Class, Expr, Ident, Member, MemberKind, Modifier, Param, Stmt, TypeRef};
use std::alloc::{AllocError, Global};

/// In a box, at this type alone: at any type, each call of it would cost the check more.
fn in_box<B: Drop>(alloc: Global, member: Member<B>) -> Made<Box<Member<B>>>
    ensures { IfOk result (λ x. x.value ≡ member) }
{
    Ok(Box::new(alloc, member)?)
}

/// What a method and a constructor both have.
fn signature<B: Drop, A, F: Fn(&A) -> B>(
    alloc: Global,
    words: &[Modifier<A>],
    name: &Ident<A>,
    list: &[Param<A>],
    f: &F,
) -> Made<(Vec<Modifier<B>>, Ident<B>, Vec<Param<B>>)>
    requires { F.IsAlwaysCallable f.now }
    ensures words { IfOk result (λ all.
        same.SameModifiers (FnReturnsAt F.Fn f.now) (map modifier_of words.now)
        (map modifier_of all.0.items)) }
    ensures name { IfOk result (λ all.
        same.SameWord (FnReturnsAt F.Fn f.now) (word_of name.now) (word_of all.1)) }
    ensures list { IfOk result (λ all.
        same.SameParams (FnReturnsAt F.Fn f.now) (map param_of list.now)
        (map param_of all.2.items)) }
{
    let words = modifiers(alloc, words, f)?;
    let name = word(alloc, name, f)?;
    let list = params(alloc, list, f)?;
    Ok((words, name, list))
}

fn field<B: Drop, A, F: Fn(&A) -> B>(
    alloc: Global,
    mark: &A,
    words: &[Modifier<A>],
    of_type: &TypeRef<A>,
    name: &Ident<A>,
    init: &Option<Expr<A>>,
    f: &F,
) -> Made<Box<Member<B>>>
    requires { F.IsAlwaysCallable f.now }
    ensures { IfOk result (λ x. same.SameMember (FnReturnsAt F.Fn f.now)
        (tree.field mark.now (map modifier_of words.now) (type_of of_type.now) (word_of name.now)
        (option_map expr_of init.now)) (member_of x.value)) }
{
    let words = modifiers(alloc, words, f)?;
    let name = word(alloc, name, f)?;
    let init = maybe_expr(alloc, init, f)?;
    let of_type = ty(alloc, of_type, f)?;
    match init {
        None => in_box(
            alloc,
            Member::field(mark_by(mark, f), words, of_type, name, None),
        ),
        Some(init) => {
            let init = Some(Box::into_inner(init));
            in_box(
                alloc,
                Member::field(mark_by(mark, f), words, of_type, name, init),
            )
        }
    }
}

fn method<B: Drop, A, F: Fn(&A) -> B>(
    alloc: Global,
    mark: &A,
    words: &[Modifier<A>],
    ret: &Option<TypeRef<A>>,
    name: &Ident<A>,
    list: &[Param<A>],
    body: &[Stmt<A>],
    f: &F,
) -> Made<Box<Member<B>>>
    requires { F.IsAlwaysCallable f.now }
    ensures { IfOk result (λ x. same.SameMember (FnReturnsAt F.Fn f.now)
        (tree.method mark.now (map modifier_of words.now) (option_map type_of ret.now)
        (word_of name.now) (map param_of list.now) (stmts_of body.now)) (member_of x.value)) }
{
    let head = signature(alloc, words, name, list, f)?;
    let body = stmts(alloc, body, f)?;
    let ret = maybe_ty(alloc, ret, f)?;
    in_box(
        alloc,
        Member::method(mark_by(mark, f), head.0, ret, head.1, head.2, body),
    )
}

fn ctor<B: Drop, A, F: Fn(&A) -> B>(
    alloc: Global,
    mark: &A,
    words: &[Modifier<A>],
    name: &Ident<A>,
    list: &[Param<A>],
    parent_args: &Option<Vec<Expr<A>>>,
    body: &[Stmt<A>],
    f: &F,
) -> Made<Box<Member<B>>>
    requires { F.IsAlwaysCallable f.now }
    ensures { IfOk result (λ x. same.SameMember (FnReturnsAt F.Fn f.now)
        (tree.constructor mark.now (map modifier_of words.now) (word_of name.now)
        (map param_of list.now) (args_of parent_args.now) (stmts_of body.now))
        (member_of x.value)) }
{
    let head = signature(alloc, words, name, list, f)?;
    let body = stmts(alloc, body, f)?;
    let args = maybe_args(alloc, parent_args, f)?;
    in_box(
        alloc,
        Member::ctor(mark_by(mark, f), head.0, head.1, head.2, args, body),
    )
}

/// A copy of a member that is a class, which is copied.
fn inner<B: Drop, A, F: Fn(&A) -> B>(
    alloc: Global,
    mark: &A,
    class: Made<Box<Class<B>>>,
    f: &F,
) -> Made<Box<Member<B>>>
    requires { F.IsAlwaysCallable f.now }
    ensures { (t : tree.Class A) → IfOk class (λ c.
        same.SameClass (FnReturnsAt F.Fn f.now) t (class_of c.value))
        → IfOk result (λ x. same.SameMember (FnReturnsAt F.Fn f.now) (tree.inner mark.now t)
        (member_of x.value)) }
{
    let class = class?;
    in_box(
        alloc,
        Member::inner(mark_by(mark, f), Box::into_inner(class)),
    )
}

/// A copy of a class, whose members are copied.
fn class_with<B: Drop, A, F: Fn(&A) -> B>(
    alloc: Global,
    of: &Class<A>,
    members: Made<Vec<Member<B>>>,
    f: &F,
) -> Made<Box<Class<B>>>
    requires { F.IsAlwaysCallable f.now }
    ensures { IfOk members (λ ms. same.SameMembers (FnReturnsAt F.Fn f.now)
        (members_of (out-Class _ of.now).members.items) (members_of ms.items))
        → IfOk result (λ x. same.SameClass (FnReturnsAt F.Fn f.now) (class_of of.now)
        (class_of x.value)) }
{
    let all = members?;
    let words = modifiers(alloc, &of.modifiers, f)?;
    let name = word(alloc, &of.name, f)?;
    let parent = maybe_ty(alloc, &of.parent, f)?;
    let copy = Class::new(mark_by(&of.mark, f), words, name, parent, all);
    Ok(Box::new(alloc, copy)?)
}

/// A copy, in a box.
#[cycle(member_marks)]
fn member<B: Drop, A, F: Fn(&A) -> B>(alloc: Global, of: &Member<A>, f: &F) -> Made<Box<Member<B>>>
    requires { F.IsAlwaysCallable f.now }
    ensures { IfOk result (λ x. same.SameMember (FnReturnsAt F.Fn f.now) (member_of of.now)
        (member_of x.value)) }
{
    match &of.kind {
        MemberKind::Field {
            modifiers,
            ty,
            name,
            init,
        } => field(alloc, &of.mark, modifiers, ty, name, init, f),
        MemberKind::Method {
            modifiers,
            ret,
            name,
            params,
            body,
        } => method(alloc, &of.mark, modifiers, ret, name, params, body, f),
        MemberKind::Ctor {
            modifiers,
            name,
            params,
            parent_args,
            body,
        } => ctor(
            alloc,
            &of.mark,
            modifiers,
            name,
            params,
            parent_args,
            body,
            f,
        ),
        MemberKind::Inner(inner_class) => {
            inner(alloc, &of.mark, class(alloc, inner_class, f), f)
        }
    }
}

/// A copy, in a box.
#[cycle(member_marks)]
fn class<B: Drop, A, F: Fn(&A) -> B>(alloc: Global, of: &Class<A>, f: &F) -> Made<Box<Class<B>>>
    requires { F.IsAlwaysCallable f.now }
    ensures { IfOk result (λ x. same.SameClass (FnReturnsAt F.Fn f.now) (class_of of.now)
        (class_of x.value)) }
{
    class_with(alloc, of, members(alloc, &of.members, f), f)
}

#[cycle(member_marks)]
fn members<B: Drop, A, F: Fn(&A) -> B>(
    alloc: Global,
    parts: &[Member<A>],
    f: &F,
) -> Made<Vec<Member<B>>>
    requires { F.IsAlwaysCallable f.now }
    ensures { IfOk result (λ x. same.SameMembers (FnReturnsAt F.Fn f.now) (members_of parts.now)
        (members_of x.items)) }
{
    let mut copies = Vec::new(alloc);
    for part in parts {
        push_made(&mut copies, member(alloc, part, f))?;
    }
    Ok(copies)
}

/// Copies of classes.
pub fn classes<B: Drop, A, F: Fn(&A) -> B>(
    alloc: Global,
    parts: &[Class<A>],
    f: &F,
) -> Result<Vec<Class<B>>, AllocError>
    requires { F.IsAlwaysCallable f.now }
    ensures { IfOk result (λ x. same.SameClasses (FnReturnsAt F.Fn f.now) (map class_of parts.now)
        (map class_of x.items)) }
{
    let mut copies = Vec::new(alloc);
    for part in parts {
        push_made(&mut copies, class(alloc, part, f))?;
    }
    Ok(copies)
}
