//! A member that is walked, and its places at which no local is declared yet.
ghost use Rattle.std.specs.Prelude.{◌≡◌, ◌+◌, [], length, map, IfOk, OnOk};
ghost use Rattle.jr_ast.specs.View.{param_of};
ghost use Rattle.jr_table.specs.TypeView.{ty_of};
ghost use Rattle.jr_table.specs.KeyView.{member_key_of};
ghost use Rattle.jr_table.specs.HeadRules.{plain, with_parameters, types_of};
ghost use Rattle.jr_scopes.specs.Helds.{held_of};
ghost use Rattle.jr_new_words.specs.Scopes.{IsKept, AreBeside, locals_in};
ghost use Rattle.jr_new_files.specs.Walking.{key_of, CanWalk, Begins, held_param, held_params};

use jr_ast::{Param, Path};
use jr_bind::Bound;
use jr_new_bodies::{Here, Spots, next};
use jr_new_words::{Scopes, Tables};
use jr_scopes::{Held, HeldType};
use jr_table::{MemberKey, Ty};
use jr_text::Span;
use std::alloc::{AllocError, Global};

/// A member that is walked: its key, what binding knows of it, and its first byte.
#[derive(Drop)]
pub(crate) struct Walked<'a> {
    pub programs: Tables<'a>,
    pub key: &'a MemberKey,
    pub bound: &'a Bound,
    pub from: u32,
}

// What a path would drop in pieces goes by a call.

fn forget(scopes: Scopes<'_>) {
    drop(scopes)
}

pub(crate) fn forget_here(here: Here<'_>) {
    drop(here)
}

/// A place of a member that has no parameters in scope.
pub(crate) fn plain_here<'a>(
    alloc: Global,
    of: &Walked<'a>,
    is_static: bool,
) -> Result<Here<'a>, AllocError>
    requires { CanWalk of.now }
    ensures { IfOk result (λ h. Begins of.now h (plain (key_of of.now) is_static)) }
{
    let scopes = Scopes::begin(alloc, &of.programs, of.key, is_static)?;
    Ok(Here {
        scopes,
        bound: of.bound,
        from: of.from,
        spots: Spots::Nowhere,
    })
}

/// The types of a member's parameters.
pub fn param_types(key: &MemberKey) -> &[Ty]
    ensures { map ty_of result.now ≡ types_of (member_key_of key.now) }
{
    match key {
        MemberKey::Method(key) => key.params.as_slice(),
        MemberKey::Ctor(key) => key.params.as_slice(),
        MemberKey::Head(_) => &[],
        MemberKey::Field(_) => &[],
    }
}

/// A parameter, whose type is that of its member's key.
fn parameter<'a>(number: u32, of: &'a Param<Span>, ty: &'a Ty) -> Held<'a>
    ensures { held_of result ≡ held_param number (param_of of.now) (ty_of ty.now) }
{
    Held {
        name: &of.name.name,
        number,
        is_final: of.is_final,
        ty: HeldType::Known(ty),
        has_init: false,
        kind: None,
    }
}

/// Brings the parameters into scope, each with its type.
pub fn push_params<'a>(
    scopes: &mut Scopes<'a>,
    types: &'a [Ty],
    params: &'a [Param<Span>],
) -> Result<(), AllocError>
    requires kept { IsKept scopes.old }
    requires none { locals_in scopes.old ≡ [] }
    ensures kept { OnOk result (IsKept scopes.new) }
    ensures beside { OnOk result (AreBeside scopes.old scopes.new) }
    ensures own { OnOk result (scopes.new.own ≡ scopes.old.own) }
    ensures locals { OnOk result (locals_in scopes.new
        ≡ held_params 0 (map param_of params.now) (map ty_of types.now)) }
{
    let mut number = 0;
    let mut rest = types;
    for param in params {
        let Some((ty, others)) = rest.split_first() else {
            return Ok(());
        };
        scopes.push(parameter(number, param, ty))?;
        number = next(number)?;
        rest = others;
    }
    Ok(())
}

/// A place of a member that has its parameters in scope.
pub(crate) fn here_with<'a>(
    alloc: Global,
    of: &Walked<'a>,
    is_static: bool,
    params: &'a [Param<Span>],
) -> Result<Here<'a>, AllocError>
    requires { CanWalk of.now }
    ensures { IfOk result (λ h. Begins of.now h
        (with_parameters (key_of of.now) is_static (map param_of params.now))) }
{
    let mut scopes = Scopes::begin(alloc, &of.programs, of.key, is_static)?;
    let pushed = push_params(&mut scopes, param_types(of.key), params);
    match pushed {
        Ok(()) => Ok(Here {
            scopes,
            bound: of.bound,
            from: of.from,
            spots: Spots::Nowhere,
        }),
        Err(error) => {
            forget(scopes);
            Err(error)
        }
    }
}

/// How many there are. More than numbers don't fit any memory.
pub(crate) fn count<T>(parts: &[T]) -> Result<u32, AllocError>
    ensures { IfOk result (λ n. n ≡ length parts.now) }
{
    match u32::try_from(parts.len()) {
        Ok(count) => Ok(count),
        Err(_) => Err(AllocError),
    }
}

/// Two numbers of parts together. More than numbers don't fit any memory.
pub(crate) fn plus(some: u32, more: u32) -> Result<u32, AllocError>
    ensures { IfOk result (λ n. n ≡ some + more) }
{
    match some.checked_add(more) {
        None => Err(AllocError),
        Some(all) => Ok(all),
    }
}

/// The way to the member itself.
pub(crate) fn no_path(alloc: Global) -> Path
    ensures { result.steps.items ≡ [] }
{
    Path {
        steps: Vec::new(alloc),
    }
}
