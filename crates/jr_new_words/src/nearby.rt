//! A scope of the new program with no locals but those that can bear on one reference.
ghost use Rattle.std.specs.Prelude.{◌≡◌, ◌++◌, ◌∷◌, [], map, OnOk, IfOk};
ghost use Rattle.jr_table.specs.TypeView.{class_key_of};
ghost use Rattle.jr_table.specs.Scope.{last_named};
ghost use Rattle.jr_lookup.specs.LocalView.{local_of};
ghost use Rattle.jr_lookup.specs.ScopeView.{scope_of};
ghost use Rattle.jr_new_words.specs.Scopes.{IsKept, place_to};
ghost use Rattle.jr_new_words.specs.Near.{IsNear, if_found, if_maybe_found};

use crate::scopes::Scopes;
use jr_ast::Name;
use jr_lookup::{Scope, ScopeLocal, ScopeLocals};
use jr_table::{ClassKey, LocalKey};
use std::alloc::{AllocError, Global};

/// Puts a local behind the others.
fn push_local(local: ScopeLocal, locals: &mut Vec<ScopeLocal>) -> Result<(), AllocError>
    ensures { OnOk result (locals.new.items ≡ locals.old.items ++ local ∷ []) }
{
    locals.push(local)?;
    Ok(())
}

/// Puts the local that the name finds behind the others, if there is one.
fn put_named(
    alloc: Global,
    scopes: &Scopes<'_>,
    name: &Name,
    locals: &mut Vec<ScopeLocal>,
) -> Result<(), AllocError>
    requires { IsKept scopes.now }
    ensures { OnOk result (map local_of locals.new.items ≡ map local_of locals.old.items
        ++ if_found name.now (last_named name.now (place_to scopes.now).locals)) }
{
    match scopes.renamed.number_named(name) {
        None => Ok(()),
        Some(number) => {
            let name = Name::new(alloc, name.as_str())?;
            let member = scopes.image.copy()?;
            let key = LocalKey { member, number };
            push_local(ScopeLocal { name, key }, locals)?;
            Ok(())
        }
    }
}

fn put_maybe_named(
    alloc: Global,
    scopes: &Scopes<'_>,
    name: &Option<Name>,
    locals: &mut Vec<ScopeLocal>,
) -> Result<(), AllocError>
    requires { IsKept scopes.now }
    ensures { OnOk result (map local_of locals.new.items ≡ map local_of locals.old.items
        ++ if_maybe_found name.now (place_to scopes.now).locals) }
{
    match name {
        None => Ok(()),
        Some(name) => put_named(alloc, scopes, name, locals),
    }
}

/// The place in the new program, with the locals that a name finds, and the names of a class and
/// of the class that it is a member of: so that a reference costs no walk over all locals.
pub(crate) fn near(
    alloc: Global,
    scopes: &Scopes<'_>,
    first: &Name,
    class: &ClassKey,
) -> Result<Scope, AllocError>
    requires { IsKept scopes.now }
    ensures { IfOk result (λ s. IsNear (scope_of s) (place_to scopes.now) first.now
        (class_key_of class.now)) }
{
    let mut locals = Vec::new(alloc);
    put_named(alloc, scopes, first, &mut locals)?;
    put_named(alloc, scopes, &class.name, &mut locals)?;
    put_maybe_named(alloc, scopes, &class.outer, &mut locals)?;
    Ok(Scope {
        class: scopes.after.class.copy()?,
        is_static: scopes.after.is_static,
        locals: ScopeLocals::from_vec(locals),
    })
}
