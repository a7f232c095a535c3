//! What stands in front of a member's expressions, in a tree of types.
ghost use Rattle.std.specs.Prelude.{◌≡◌, ◌++◌, IfOk, option_map};
ghost use Rattle.jr_ast.specs.View.{type_of};
ghost use Rattle.jr_expr_types.specs.Trees.{none, count, flats};
ghost use Rattle.jr_expr_types.specs.TypedTrees.{put_leaves};
ghost use Rattle.jr_bind_parts.specs.TypedFlow.{named_count};

use jr_ast::TypeRef;
use jr_bind_expr::{more_parts, put_leaf};
use jr_expr_types::Types;
use std::alloc::AllocError;

/// Parts in which no expression stands.
fn put_row(count: usize, types: &mut Types) -> Result<(), AllocError>
    ensures { IfOk result (λ _. types.new ≡ types.old ++ flats (put_leaves count none)) }
{
    for _leaf in 0..count {
        put_leaf(types)?;
    }
    Ok(())
}

/// The parts in front of the expressions: modifiers, `named` for type and name, and parameters; and
/// how many there are.
pub fn put_front(
    modifiers: usize,
    named: usize,
    params: usize,
    types: &mut Types,
) -> Result<usize, AllocError>
    ensures slots { IfOk result (λ _. types.new ≡ types.old
        ++ flats (put_leaves params (put_leaves named (put_leaves modifiers none)))) }
    ensures count { IfOk result (λ n.
        n ≡ count (put_leaves params (put_leaves named (put_leaves modifiers none)))) }
{
    put_row(modifiers, types)?;
    put_row(named, types)?;
    put_row(params, types)?;
    let first = more_parts(modifiers, named)?;
    more_parts(first, params)
}

/// How many parts a method's type and name are.
pub fn named_parts<A>(ret: &Option<TypeRef<A>>) -> usize
    ensures { result ≡ named_count (option_map type_of ret.now) }
{
    match ret {
        None => 1,
        Some(_) => 2,
    }
}
