//! Nodes in a tree of types, and the types of kinds.
ghost use Rattle.std.specs.Prelude.{◌≡◌, ◌≤◌, ◌+◌, ◌++◌, suc, Some, List, Option, length, IfOk};
ghost use Rattle.std.specs.Prelude.{option_map};
ghost use Rattle.jr_ast.specs.View.{expr_of, target_of};
ghost use Rattle.jr_table.specs.Context.{Context};
ghost use Rattle.jr_table.specs.Decls.{class_decl};
ghost use Rattle.jr_table.specs.Entries.{kind_of};
ghost use Rattle.jr_table.specs.KeyView.{decl_of};
ghost use Rattle.jr_table.specs.Keys as keys;
ghost use Rattle.jr_table.specs.Lookup.{decl_at};
ghost use Rattle.jr_table.specs.Rows.{Row};
ghost use Rattle.jr_table.specs.TypeView.{class_key_of, ty_of};
ghost use Rattle.jr_expr_types.specs.Trees.{count, flat};
ghost use Rattle.jr_expr_types.specs.TypedTrees.{leaf, exp_parts, target_parts};
ghost use Rattle.jr_bind_expr.specs.Places.{IsRowed, IsRowedIf};
ghost use Rattle.jr_bind_expr.specs.TypedSlots.{Puts};

use crate::rows::decl_at;
use jr_ast::{Expr, ExprKind};
use jr_expr_types::Types;
use jr_table::{Decl, Kind, Table, Ty};
use std::alloc::AllocError;

/// The type of a class, if it is one that is declared.
fn decl_type(decl: &Decl) -> Result<Option<Ty>, AllocError>
    ensures { (k : keys.ClassKey) → decl_of decl.now ≡ class_decl k
        → IfOk result (λ t. option_map ty_of t ≡ Some (keys.class k)) }
{
    match decl {
        Decl::Class(key) => {
            let key = key.copy()?;
            Ok(Some(Ty::Class(key)))
        }
        Decl::Field(_) => Ok(None),
        Decl::Method(_) => Ok(None),
        Decl::Ctor(_) => Ok(None),
        Decl::Local(_) => Ok(None),
    }
}

/// The type of the class of a row.
fn class_type(table: &Table, number: u32) -> Result<Option<Ty>, AllocError>
    ensures { (k : keys.ClassKey) → decl_at table.now number ≡ Some (class_decl k)
        → IfOk result (λ t. option_map ty_of t ≡ Some (keys.class k)) }
{
    match decl_at(table, number) {
        None => Ok(None),
        Some(decl) => decl_type(decl),
    }
}

/// The type of a kind.
fn kind_type(table: &Table, kind: Kind) -> Result<Option<Ty>, AllocError>
    ensures { (t : keys.Ty) → kind ≡ kind_of table.now t → IsRowed table.now t
        → IfOk result (λ r. option_map ty_of r ≡ Some t) }
{
    table.keeps_rows();
    match kind {
        Kind::Int => Ok(Some(Ty::Int)),
        Kind::Boolean => Ok(Some(Ty::Boolean)),
        Kind::Void => Ok(Some(Ty::Void)),
        Kind::Null => Ok(Some(Ty::Null)),
        Kind::Class(number) => class_type(table, number),
    }
}

/// The type of a kind, if there is one.
fn type_of_kind(table: &Table, kind: Option<Kind>) -> Result<Option<Ty>, AllocError>
    ensures { (t : Option keys.Ty) → kind ≡ option_map (kind_of table.now) t
        → IsRowedIf table.now t → IfOk result (λ r. option_map ty_of r ≡ t) }
{
    match kind {
        None => Ok(None),
        Some(kind) => kind_type(table, kind),
    }
}

/// So many parts more. More parts than numbers don't fit any memory.
pub fn more_parts(first: usize, more: usize) -> Result<usize, AllocError>
    ensures { IfOk result (λ n. n ≡ first + more) }
{
    match first.checked_add(more) {
        None => Err(AllocError),
        Some(all) => Ok(all),
    }
}

/// How many parts stand in front of a call's arguments: what it is made on, and its name.
fn first_parts<A>(of: &Option<Box<Expr<A>>>) -> usize
    ensures { (rows : List Row) (c : Context)
        → result ≡ suc (count (target_parts rows c (target_of of.now))) }
{
    match of {
        None => 1,
        Some(_) => 2,
    }
}

/// How many parts an expression has.
#[tactic(auto, unfolding(jr_ast::specs::View::expr_kind, jr_expr_types::specs::TypedTrees::exp_parts))]
fn part_count<A>(of: &Expr<A>) -> Result<usize, AllocError>
    ensures { (rows : List Row) (c : Context)
        → IfOk result (λ n. n ≡ count (exp_parts rows c (expr_of of.now))) }
{
    match &of.kind {
        ExprKind::Int(_) => Ok(0),
        ExprKind::Bool(_) => Ok(0),
        ExprKind::Null => Ok(0),
        ExprKind::Text(_) => Ok(0),
        ExprKind::This => Ok(0),
        ExprKind::ClassLit(_) => Ok(1),
        ExprKind::Simple(_) => Ok(1),
        ExprKind::Field(_, _) => Ok(2),
        ExprKind::SuperField(_) => Ok(1),
        ExprKind::Call(on, _, args) => more_parts(first_parts(on), args.len()),
        ExprKind::SuperCall(_, args) => more_parts(1, args.len()),
        ExprKind::New(_, args) => more_parts(1, args.len()),
        ExprKind::Paren(_) => Ok(1),
        ExprKind::Cast(_, _) => Ok(2),
        ExprKind::Unary(_, _) => Ok(1),
        ExprKind::Bump(_, _) => Ok(1),
        ExprKind::Binary(_, _, _) => Ok(2),
        ExprKind::Assign(_, _) => Ok(2),
        ExprKind::Compound(_, _, _) => Ok(2),
    }
}

/// A part in which no expression stands.
pub fn put_leaf(types: &mut Types) -> Result<(), AllocError>
    ensures { IfOk result (λ _. types.new ≡ types.old ++ flat leaf) }
{
    let before = types.count();
    types.close(before, 0, None)
}

/// The node of an expression of this kind, of its parts, which are the slots behind the first
/// `before` ones.
pub(crate) fn close_expr<A>(
    table: &Table,
    before: usize,
    of: &Expr<A>,
    kind: Option<Kind>,
    types: &mut Types,
) -> Result<(), AllocError>
    requires { before ≤ length types.old }
    ensures { (c : Context) (t : Option keys.Ty) → kind ≡ option_map (kind_of table.now) t
        → IsRowedIf table.now t → IfOk result (λ _. Puts before
        (count (exp_parts table.now c (expr_of of.now))) t types.old types.new) }
{
    let parts = part_count(of)?;
    let ty = type_of_kind(table, kind)?;
    types.close(before, parts, ty)
}
