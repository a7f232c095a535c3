//! Parameters in scope (JLS 8.4.1, 8.8.1).
ghost use Rattle.std.specs.Prelude.{◌≡◌, IfOk, map, length};
ghost use Rattle.jr_ast.specs.View.{param_of};
ghost use Rattle.jr_table.specs.TypeView.{ty_of};
ghost use Rattle.jr_table.specs.KeyView.{member_key_of};
ghost use Rattle.jr_table.specs.HeadRules.{types_of};
ghost use Rattle.jr_scopes.specs.Helds.{held_of};
ghost use Rattle.jr_scopes.specs.Tracked.{Tracked, helds_of};
ghost use Rattle.jr_bind_parts.specs.Parameters as pure;

use crate::locals::next;
use jr_ast::Param;
use jr_scopes::{Held, HeldType, Locals};
use jr_table::{MemberKey, Table, Ty};
use std::alloc::{AllocError, Global};

/// The types of a member's parameters.
pub fn param_types(key: &MemberKey) -> &[Ty]
    ensures { map ty_of result.now ≡ types_of (member_key_of key.now) }
{
    match key {
        MemberKey::Method(key) => key.params.as_slice(),
        MemberKey::Ctor(key) => key.params.as_slice(),
        MemberKey::Head(_) => &[],
        MemberKey::Field(_) => &[],
    }
}

/// How many parameters there are. More than numbers don't fit any memory.
pub fn count<A>(params: &[Param<A>]) -> Result<u32, AllocError>
    ensures { IfOk result (λ n. n ≡ length params.now) }
{
    match u32::try_from(params.len()) {
        Ok(count) => Ok(count),
        Err(_) => Err(AllocError),
    }
}

/// A parameter, whose type is that of its member's key.
fn parameter<'a, A>(table: &Table, number: u32, of: &'a Param<A>, ty: &'a Ty) -> Held<'a>
    ensures { held_of result
        ≡ pure.held_parameter table.now number (param_of of.now) (ty_of ty.now) }
{
    Held {
        name: &of.name.name,
        number,
        is_final: of.is_final,
        ty: HeldType::Known(ty),
        has_init: false,
        kind: Some(table.kind(ty)),
    }
}

/// The parameters, each with its type.
pub fn parameters<'a, A>(
    alloc: Global,
    table: &Table,
    types: &'a [Ty],
    params: &'a [Param<A>],
) -> Result<Locals<'a>, AllocError>
    ensures held { IfOk result (λ locals. helds_of locals
        ≡ pure.held_parameters table.now 0 (map param_of params.now) (map ty_of types.now)) }
    ensures tracked { IfOk result (λ locals. Tracked locals) }
{
    let mut locals = Locals::new(alloc);
    let mut number = 0;
    let mut rest = types;
    for param in params {
        let Some((ty, others)) = rest.split_first() else {
            return Ok(locals);
        };
        locals.push(parameter(table, number, param, ty))?;
        number = next(number)?;
        rest = others;
    }
    Ok(locals)
}
