//! A copy of a tree with other marks: names, types and parameters.
ghost use Rattle.std.specs.Prelude.{◌≡◌, IfOk, option_map, map};
ghost use Rattle.std.specs.Fn.{FnReturnsAt};
ghost use Rattle.jr_paths_copies.specs.Same as same;
ghost use Rattle.jr_ast.specs.View.{word_of, modifier_of, type_of, param_of};

use jr_ast::{Ident, Modifier, Name, Param, TypeKind, TypeRef};
use std::alloc::{AllocError, Global};

/// The new mark.
pub fn mark_by<B, A, F: Fn(&A) -> B>(mark: &A, f: &F) -> B
    requires { F.IsAlwaysCallable f.now }
    ensures { FnReturnsAt F.Fn f.now mark.now result }
{
    f(mark)
}

pub(crate) fn word<B: Drop, A, F: Fn(&A) -> B>(
    alloc: Global,
    word: &Ident<A>,
    f: &F,
) -> Result<Ident<B>, AllocError>
    requires { F.IsAlwaysCallable f.now }
    ensures { IfOk result (λ w. same.SameWord (FnReturnsAt F.Fn f.now)
        (word_of word.now) (word_of w)) }
{
    let name = Name::new(alloc, word.name.as_str())?;
    let mark = mark_by(&word.mark, f);
    Ok(Ident { mark, name })
}

pub(crate) fn ty<B: Drop, A, F: Fn(&A) -> B>(
    alloc: Global,
    ty: &TypeRef<A>,
    f: &F,
) -> Result<TypeRef<B>, AllocError>
    requires { F.IsAlwaysCallable f.now }
    ensures { IfOk result (λ t. same.SameType (FnReturnsAt F.Fn f.now)
        (type_of ty.now) (type_of t)) }
{
    match &ty.kind {
        TypeKind::Int => Ok(TypeRef {
            mark: mark_by(&ty.mark, f),
            kind: TypeKind::Int,
        }),
        TypeKind::Boolean => Ok(TypeRef {
            mark: mark_by(&ty.mark, f),
            kind: TypeKind::Boolean,
        }),
        TypeKind::Named(outer, name) => {
            let name = word(alloc, name, f)?;
            match outer {
                None => Ok(TypeRef {
                    mark: mark_by(&ty.mark, f),
                    kind: TypeKind::Named(None, name),
                }),
                Some(outer) => {
                    let outer = word(alloc, outer, f)?;
                    Ok(TypeRef {
                        mark: mark_by(&ty.mark, f),
                        kind: TypeKind::Named(Some(outer), name),
                    })
                }
            }
        }
    }
}

/// A type in a box, at this type alone.
fn in_box<B: Drop>(alloc: Global, ty: TypeRef<B>) -> Result<Box<TypeRef<B>>, AllocError>
    ensures { IfOk result (λ t. t.value ≡ ty) }
{
    Ok(Box::new(alloc, ty)?)
}

/// The same of a type in a box.
pub(crate) fn boxed_ty<B: Drop, A, F: Fn(&A) -> B>(
    alloc: Global,
    of: &Box<TypeRef<A>>,
    f: &F,
) -> Result<Box<TypeRef<B>>, AllocError>
    requires { F.IsAlwaysCallable f.now }
    ensures { IfOk result (λ t. same.SameType (FnReturnsAt F.Fn f.now)
        (type_of of.now.value) (type_of t.value)) }
{
    let made = ty(alloc, of, f)?;
    in_box(alloc, made)
}

pub(crate) fn param<B: Drop, A, F: Fn(&A) -> B>(
    alloc: Global,
    param: &Param<A>,
    f: &F,
) -> Result<Param<B>, AllocError>
    requires { F.IsAlwaysCallable f.now }
    ensures { IfOk result (λ p. same.SameParam (FnReturnsAt F.Fn f.now) (param_of param.now)
        (param_of p)) }
{
    let name = word(alloc, &param.name, f)?;
    let ty = ty(alloc, &param.ty, f)?;
    let mark = mark_by(&param.mark, f);
    Ok(Param {
        mark,
        is_final: param.is_final,
        ty,
        name,
    })
}

pub(crate) fn maybe_ty<B: Drop, A, F: Fn(&A) -> B>(
    alloc: Global,
    of: &Option<TypeRef<A>>,
    f: &F,
) -> Result<Option<TypeRef<B>>, AllocError>
    requires { F.IsAlwaysCallable f.now }
    ensures { IfOk result (λ x. same.SameMaybeType (FnReturnsAt F.Fn f.now)
        (option_map type_of of.now) (option_map type_of x)) }
{
    match of {
        None => Ok(None),
        Some(of) => {
            let copy = ty(alloc, of, f)?;
            Ok(Some(copy))
        }
    }
}

fn modifier<B: Drop, A, F: Fn(&A) -> B>(modifier: &Modifier<A>, f: &F) -> Modifier<B>
    requires { F.IsAlwaysCallable f.now }
    ensures { same.SameModifier (FnReturnsAt F.Fn f.now) (modifier_of modifier.now)
        (modifier_of result) }
{
    let mark = mark_by(&modifier.mark, f);
    Modifier {
        mark,
        word: modifier.word,
    }
}

pub(crate) fn modifiers<B: Drop, A, F: Fn(&A) -> B>(
    alloc: Global,
    parts: &[Modifier<A>],
    f: &F,
) -> Result<Vec<Modifier<B>>, AllocError>
    requires { F.IsAlwaysCallable f.now }
    ensures { IfOk result (λ x. same.SameModifiers (FnReturnsAt F.Fn f.now)
        (map modifier_of parts.now) (map modifier_of x.items)) }
{
    let mut copies = Vec::new(alloc);
    for part in parts {
        copies.push(modifier(part, f))?;
    }
    Ok(copies)
}

/// Copies of words.
pub fn words<B: Drop, A, F: Fn(&A) -> B>(
    alloc: Global,
    parts: &[Ident<A>],
    f: &F,
) -> Result<Vec<Ident<B>>, AllocError>
    requires { F.IsAlwaysCallable f.now }
    ensures { IfOk result (λ x. same.SameWords (FnReturnsAt F.Fn f.now) (map word_of parts.now)
        (map word_of x.items)) }
{
    let mut copies = Vec::new(alloc);
    for part in parts {
        copies.push(word(alloc, part, f)?)?;
    }
    Ok(copies)
}

pub(crate) fn params<B: Drop, A, F: Fn(&A) -> B>(
    alloc: Global,
    parts: &[Param<A>],
    f: &F,
) -> Result<Vec<Param<B>>, AllocError>
    requires { F.IsAlwaysCallable f.now }
    ensures { IfOk result (λ x. same.SameParams (FnReturnsAt F.Fn f.now) (map param_of parts.now)
        (map param_of x.items)) }
{
    let mut copies = Vec::new(alloc);
    for part in parts {
        copies.push(param(alloc, part, f)?)?;
    }
    Ok(copies)
}
