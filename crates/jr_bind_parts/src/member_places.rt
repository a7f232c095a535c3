//! Places of a member at which no local is declared yet.
ghost use Rattle.std.specs.Prelude.{◌≡◌, ◌<◌, List, Some, IfOk, map, length};
ghost use Rattle.jr_ast.specs.View.{param_of};
ghost use Rattle.jr_table.specs.Rows.{Row};
ghost use Rattle.jr_table.specs.Decls as decls;
ghost use Rattle.jr_table.specs.KeyView.{member_key_of};
ghost use Rattle.jr_table.specs.Entries.{number_of, class_of_member};
ghost use Rattle.jr_table.specs.HeadRules.{plain, with_parameters};
ghost use Rattle.jr_bind_expr.specs.Places.{context_of, decl_of, Knows};
ghost use Rattle.jr_bind_parts.specs.Parameters.{in_instance};

use crate::parameters::{param_types, parameters};
use jr_ast::Param;
use jr_bind_expr::Place;
use jr_scopes::Locals;
use jr_table::{MemberKey, Table};
use std::alloc::{AllocError, Global};

/// The class of the member of a row.
fn class_of(table: &Table, row: u32) -> u32
    requires { row < length table.now }
    ensures { (k : decls.MemberKey) → number_of table.now (decl_of k) ≡ Some row
        → number_of table.now (decls.class_decl (class_of_member k)) ≡ Some result }
{
    table.keeps_rows();
    table.entries()[row as usize].class
}

/// A place of a member without parameters.
pub fn plain_place<'a>(
    alloc: Global,
    table: &Table,
    key: &'a MemberKey,
    row: u32,
    is_static: bool,
) -> Place<'a>
    requires { number_of table.now (decl_of (member_key_of key.now)) ≡ Some row }
    ensures context { context_of result ≡ plain (member_key_of key.now) is_static }
    ensures knows { Knows table.now result }
{
    Place {
        member: key,
        row,
        class: class_of(table, row),
        is_static,
        locals: Locals::new(alloc),
        own: None,
    }
}

/// A place of a member at which its parameters are in scope.
pub fn place_with<'a, A>(
    alloc: Global,
    table: &Table,
    key: &'a MemberKey,
    row: u32,
    is_static: bool,
    params: &'a [Param<A>],
) -> Result<Place<'a>, AllocError>
    requires { number_of table.now (decl_of (member_key_of key.now)) ≡ Some row }
    ensures context { IfOk result (λ place. context_of place
        ≡ with_parameters (member_key_of key.now) is_static (map param_of params.now)) }
    ensures knows { IfOk result (λ place. Knows table.now place) }
{
    table.keeps_rows();
    let class = class_of(table, row);
    let locals = parameters(alloc, table, param_types(key), params)?;
    Ok(Place {
        member: key,
        row,
        class,
        is_static,
        locals,
        own: None,
    })
}

/// Behind what stands in a static context (JLS 8.8.7.1), there is an object.
pub fn make_instance(place: &mut Place<'_>)
    ensures context { context_of place.new ≡ in_instance (context_of place.old) }
    ensures knows { (rows : List Row) → Knows rows place.old → Knows rows place.new }
{
    place.is_static = false;
}
