//! How places change along a member.
ghost use Rattle.std.specs.Prelude.{◌≡◌, length, option_map, IfOk};
ghost use Rattle.jr_ast.specs.View.{word_of, type_of};
ghost use Rattle.jr_table.specs.Context.{in_own, local_of, local_type, outer_text};
ghost use Rattle.jr_scopes.specs.Helds.{held_of};
ghost use Rattle.jr_scopes.specs.Helds.{type_of as held_type_of};
ghost use Rattle.jr_new_words.specs.Scopes.{IsDeep};
ghost use Rattle.jr_new_bodies.specs.Known.{context_of, mapping_of, IsKnown};
ghost use Rattle.jr_new_bodies.specs.Moves as pure;
ghost use Rattle.jr_new_bodies.specs.Moves.{Goes};

use crate::here::Here;
use jr_ast::{Ident, Name, TypeKind, TypeRef};
use jr_scopes::{Held, HeldType};
use std::alloc::AllocError;

fn outer_name<A>(of: &Option<Ident<A>>) -> Option<&Name>
    ensures { option_map (λ n. n.now) result ≡ outer_text (option_map word_of of.now) }
{
    match of {
        None => None,
        Some(of) => Some(&of.name),
    }
}

/// The type that a local is declared with.
fn held_type<A>(of: &TypeRef<A>) -> HeldType<'_>
    ensures { held_type_of result ≡ local_type (type_of of.now) }
{
    match &of.kind {
        TypeKind::Int => HeldType::Int,
        TypeKind::Boolean => HeldType::Boolean,
        TypeKind::Named(outer, name) => HeldType::Named(outer_name(outer), &name.name),
    }
}

/// A local as it is declared.
fn declared_local<'a, A>(
    number: u32,
    is_final: bool,
    ty: &'a TypeRef<A>,
    name: &'a Ident<A>,
) -> Held<'a>
    ensures { pure.IsHeld number is_final (type_of ty.now) (word_of name.now) (held_of result) }
{
    Held {
        name: &name.name,
        number,
        is_final,
        ty: held_type(ty),
        has_init: true,
        kind: None,
    }
}

/// Brings a local into scope, in whose initializer the place is then (JLS 6.3).
pub fn declare<'a, A>(
    here: &mut Here<'a>,
    number: u32,
    is_final: bool,
    ty: &'a TypeRef<A>,
    name: &'a Ident<A>,
) -> Result<(), AllocError>
    requires known { IsKnown here.old }
    ensures { IfOk result (λ _. Goes here.old here.new (in_own (context_of here.old)
        (local_of (context_of here.old) number is_final (type_of ty.now) (word_of name.now)))) }
{
    here.scopes
        .push(declared_local(number, is_final, ty, name))?;
    here.scopes.set_own(Some(number));
    Ok(())
}

/// Behind a local's initializer.
pub fn leave_own(here: &mut Here<'_>)
    requires known { IsKnown here.old }
    ensures { Goes here.old here.new (pure.without_own (context_of here.old)) }
{
    here.scopes.set_own(None);
}

/// How many locals are in scope.
pub(crate) fn depth(here: &Here<'_>) -> usize
    ensures { result ≡ length (context_of here.now).locals }
{
    here.scopes.len()
}

/// The local in whose initializer the place is.
pub(crate) fn own(here: &Here<'_>) -> Option<u32>
    ensures { (context_of here.now).own
        ≡ pure.own_key (context_of here.now).member result }
{
    here.scopes.own
}

/// Behind a block: what was declared in it is gone.
pub(crate) fn cut_back(
    here: &mut Here<'_>,
    depth: usize,
    own: Option<u32>,
) -> Result<(), AllocError>
    requires known { IsKnown here.old }
    requires deep { IsDeep (mapping_of here.old).locals depth }
    ensures { IfOk result (λ _. Goes here.old here.new
        (pure.cut depth own (context_of here.old))) }
{
    here.scopes.truncate(depth)?;
    here.scopes.set_own(own);
    Ok(())
}
