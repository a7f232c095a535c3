//! Which local has a name that is wanted: among parameters, and where a declaration comes.
ghost use Rattle.std.specs.Prelude.{◌≡◌, ◌++◌, Bool, IfOk, length, map, option_map, ℕ};
ghost use Rattle.jr_ast.specs.View.{param_of, stmts_of};
ghost use Rattle.jr_table.specs.Context.{local_key, scope_of};
ghost use Rattle.jr_table.specs.Decls as decls;
ghost use Rattle.jr_table.specs.SameKeys.{same_name};
ghost use Rattle.jr_table.specs.HeadRules.{types_of, with_parameters};
ghost use Rattle.jr_pieces.specs.Declared.{declared_in_list, first_named};
ghost use Rattle.jr_pieces.specs.Standings.{Standing};
ghost use Rattle.jr_local_search.specs.Descending.{at_of};
ghost use Rattle.jr_local_search.specs.Scopes.{IsAt, first_param as pure, in_body};

use crate::declarations::{Declaration, first_declared, number_behind};
use crate::laws::declared_names;
use crate::scopes::AtElement;
use jr_ast::{Name, Param, Stmt};
use jr_text::Span;
use std::alloc::AllocError;

fn has_name(param: &Param<Span>, name: &Name) -> bool
    ensures { result ≡ same_name (param_of param.now).name.text name.now }
{
    param.name.name == *name
}

/// The number of the first parameter of the name, among the first ones, of which there are `types`.
fn first_param(name: &Name, types: usize, params: &[Param<Span>]) -> Result<Option<u32>, AllocError>
    ensures { IfOk result (λ o. o ≡ pure name.now 0 types (map param_of params.now)) }
{
    let mut number = 0;
    let mut left = types;
    for param in params {
        if left == 0 {
            return Ok(None);
        }
        if has_name(param, name) {
            return Ok(Some(number));
        }
        number = number_behind(number)?;
        left -= 1;
    }
    Ok(None)
}

fn count_params(params: &[Param<Span>]) -> Result<u32, AllocError>
    ensures { IfOk result (λ n. n ≡ length params.now) }
{
    match u32::try_from(params.len()) {
        Err(_) => Err(AllocError),
        Ok(count) => Ok(count),
    }
}

/// What is known where the body of a method or constructor begins, whose parameters these are, and
/// whose key has so many types (JLS 8.4.1). The only fault is want of memory.
pub fn at_body(name: &Name, types: usize, params: &[Param<Span>]) -> Result<AtElement, AllocError>
    ensures { IfOk result (λ x. (k : decls.MemberKey) (is_static : Bool) (base : ℕ)
        → length (types_of k) ≡ types
        → IsAt name.now (in_body k is_static base (map param_of params.now)) (at_of x)) }
{
    let named = first_param(name, types, params)?;
    let next = count_params(params)?;
    Ok(AtElement { next, named })
}

fn number_of(declaration: Option<Declaration<'_>>) -> Option<u32>
    ensures { result ≡ option_map (λ d. d.number) declaration.entry }
{
    match declaration {
        None => None,
        Some(declaration) => Some(declaration.number),
    }
}

/// The local or parameter of least number whose name is taken where a declaration comes in front of
/// an element of a list: one in scope there, or one that the element or a statement behind it
/// declares, nested lists included (JLS 6.4). `held` is the list from the element on. The only
/// fault is want of memory.
pub fn first_taken(
    name: &Name,
    at: AtElement,
    held: &[Stmt<Span>],
) -> Result<Option<u32>, AllocError>
    ensures { IfOk result (λ o. (p : Standing) → IsAt name.now p (at_of at)
        → first_named name.now ((scope_of p.context).locals
        ++ declared_in_list p.context.member p.next (stmts_of held.now))
        ≡ option_map (local_key p.context) o) }
{
    declared_names();
    match at.named {
        Some(number) => Ok(Some(number)),
        None => {
            let declaration = first_declared(name, at.next, held)?;
            Ok(number_of(declaration))
        }
    }
}
