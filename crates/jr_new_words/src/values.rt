//! How what is found in the new program stands in front of a dot: a class, or a variable whose
//! type is a class (JLS 6.5.2).
ghost use Rattle.std.specs.Prelude.{◌≡◌, ℕ, IfOk, Some, option_map, slice_get};
ghost use Rattle.jr_table.specs.Keys.{class};
ghost use Rattle.jr_table.specs.Decls.{class_decl, local_decl};
ghost use Rattle.jr_table.specs.Found.{one};
ghost use Rattle.jr_table.specs.Entries.{IsRowOf};
ghost use Rattle.jr_table.specs.Lookup.{decl_at, shown_one};
ghost use Rattle.jr_table.specs.TypeView.{class_key_of, ty_of};
ghost use Rattle.jr_table.specs.KeyView.{decl_of, local_key_of};
ghost use Rattle.jr_table.specs.RowView.{row_of};
ghost use Rattle.jr_table.specs.FoundView.{found_of};
ghost use Rattle.jr_table.specs.Context.{IsLocalType, written, scope_of};
ghost use Rattle.jr_scopes.specs.Helds.{held_of, key_of};
ghost use Rattle.jr_images.specs.Words.{value_of};
ghost use Rattle.jr_new_words.specs.Mappings.{class_to, member_to, StandsSo};
ghost use Rattle.jr_new_words.specs.FrontView.{in_front_of};
ghost use Rattle.jr_new_words.specs.Valued as valued;
ghost use Rattle.jr_new_words.specs.Scopes.{
  IsKept,
  rows_of,
  mapping_of,
  member_of,
  context_of,
  rows_to,
};

use crate::finding::class_found;
use crate::fronts::InFront;
use crate::looking::type_behind;
use crate::mappings::KeyMapping;
use crate::scopes::Scopes;
use crate::staying::row_decl;
use jr_ast::Name;
use jr_lookup::type_named;
use jr_scopes::{Held, HeldType};
use jr_table::{ClassKey, Decl, Found, LocalKey, Row, Table, Ty, lookups_are_exact};
use std::alloc::AllocError;

fn forget(found: Found) {
    drop(found)
}

// ---- locals

/// A value of the class of a row.
fn row_value(table: &Table, number: u32) -> InFront<'_>
    ensures { in_front_of result ≡ valued.of_decl (decl_at table.now number) }
{
    match row_decl(table, number) {
        None => InFront::Neither,
        Some(decl) => decl_value(decl),
    }
}

fn decl_value(decl: &Decl) -> InFront<'_>
    ensures { in_front_of result ≡ valued.of_decl (Some (decl_of decl.now)) }
{
    match decl {
        Decl::Class(key) => InFront::Value(key),
        Decl::Field(_) => InFront::Neither,
        Decl::Method(_) => InFront::Neither,
        Decl::Ctor(_) => InFront::Neither,
        Decl::Local(_) => InFront::Neither,
    }
}

/// A value of a class that has a row in both programs.
fn same_value<'a>(table: &'a Table, class: &ClassKey) -> InFront<'a>
    requires { (i : ℕ) × IsRowOf table.now (class_decl (class_key_of class.now)) i }
    ensures { in_front_of result ≡ value_of (class_key_of class.now) }
{
    table.keeps_rows();
    match table.class_number(class) {
        None => InFront::Neither,
        Some(number) => row_value(table, number),
    }
}

/// A value of the image of the class that has this row.
fn image_value<'a>(scopes: &Scopes<'a>, class: &ClassKey, number: u32) -> InFront<'a>
    requires kept { IsKept scopes.now }
    requires row { IsRowOf (rows_of scopes.now) (class_decl (class_key_of class.now)) number }
    ensures { in_front_of result
        ≡ value_of (class_to (mapping_of scopes.now) (class_key_of class.now)) }
{
    match scopes.programs.keys {
        KeyMapping::Same => same_value(scopes.programs.after, class),
        KeyMapping::Renamed(_) => row_value(scopes.programs.after, number),
    }
}

/// A value of the image of a class that has a row.
fn class_value<'a>(scopes: &Scopes<'a>, class: &ClassKey) -> InFront<'a>
    requires { IsKept scopes.now }
    ensures { valued.IsValue (rows_of scopes.now) (mapping_of scopes.now)
        (λ t. t ≡ class_key_of class.now) (in_front_of result) }
{
    scopes.programs.before.keeps_rows();
    match scopes.programs.before.class_number(class) {
        None => InFront::Neither,
        Some(number) => image_value(scopes, class, number),
    }
}

fn type_value<'a>(scopes: &Scopes<'a>, ty: &Ty) -> InFront<'a>
    requires { IsKept scopes.now }
    ensures { valued.IsValue (rows_of scopes.now) (mapping_of scopes.now)
        (λ t. ty_of ty.now ≡ class t) (in_front_of result) }
{
    match ty {
        Ty::Int => InFront::Neither,
        Ty::Boolean => InFront::Neither,
        Ty::Void => InFront::Neither,
        Ty::Null => InFront::Neither,
        Ty::Class(key) => class_value(scopes, key),
    }
}

/// The class that a written type means in the old program.
fn written_class(
    scopes: &Scopes<'_>,
    outer: Option<&Name>,
    name: &Name,
) -> Result<Found, AllocError>
    requires { IsKept scopes.now }
    ensures { IfOk result (λ f. valued.WritesFound (rows_of scopes.now) (context_of scopes.now)
        (option_map (λ n. n.now) outer.entry) name.now (found_of f)) }
{
    let table = scopes.programs.before;
    table.keeps_rows();
    lookups_are_exact();
    match outer {
        None => type_named(table, &scopes.before, name),
        Some(outer) => type_behind(table, &scopes.before, outer, name),
    }
}

fn found_value<'a>(scopes: &Scopes<'a>, found: &Found) -> InFront<'a>
    requires { IsKept scopes.now }
    ensures { valued.IsValue (rows_of scopes.now) (mapping_of scopes.now)
        (λ t. found_of found.now ≡ one (class_decl t)) (in_front_of result) }
{
    match class_found(found) {
        None => InFront::Neither,
        Some(key) => class_value(scopes, key),
    }
}

fn named_value<'a>(
    scopes: &Scopes<'a>,
    outer: Option<&Name>,
    name: &Name,
) -> Result<InFront<'a>, AllocError>
    requires { IsKept scopes.now }
    ensures { IfOk result (λ w. valued.IsValue (rows_of scopes.now) (mapping_of scopes.now)
        (λ t. IsLocalType (rows_of scopes.now) (scope_of (context_of scopes.now))
        (written (option_map (λ n. n.now) outer.entry) name.now) (class t)) (in_front_of w)) }
{
    scopes.programs.before.keeps_rows();
    lookups_are_exact();
    let found = written_class(scopes, outer, name)?;
    let value = found_value(scopes, &found);
    forget(found);
    Ok(value)
}

/// A value of the type that a local is declared with.
fn held_value<'a>(scopes: &Scopes<'a>, held: &Held<'_>) -> Result<InFront<'a>, AllocError>
    requires { IsKept scopes.now }
    ensures { IfOk result (λ w. valued.IsValue (rows_of scopes.now) (mapping_of scopes.now)
        (λ t. IsLocalType (rows_of scopes.now) (scope_of (context_of scopes.now))
        (held_of held.now).type (class t)) (in_front_of w)) }
{
    match held.ty {
        HeldType::Int => Ok(InFront::Neither),
        HeldType::Boolean => Ok(InFront::Neither),
        HeldType::Known(ty) => Ok(type_value(scopes, ty)),
        HeldType::Named(outer, name) => named_value(scopes, outer, name),
    }
}

/// How the image of the member's local of this number stands.
pub(crate) fn number_stands<'a>(scopes: &Scopes<'a>, number: u32) -> Result<InFront<'a>, AllocError>
    requires { IsKept scopes.now }
    ensures { IfOk result (λ w. StandsSo (rows_of scopes.now) (mapping_of scopes.now)
        (context_of scopes.now) (one (local_decl (key_of
        (member_to (mapping_of scopes.now) (member_of scopes.now)) number))) (in_front_of w)) }
{
    match scopes.renamed.held_numbered(number) {
        None => Ok(InFront::Neither),
        Some(held) => held_value(scopes, held),
    }
}

/// How a local stands, by its key. No program has a row of one.
fn local_stands<'a>(scopes: &Scopes<'a>, key: &LocalKey) -> Result<InFront<'a>, AllocError>
    requires { IsKept scopes.now }
    ensures { IfOk result (λ w. StandsSo (rows_of scopes.now) (mapping_of scopes.now)
        (context_of scopes.now) (one (local_decl (local_key_of key.now))) (in_front_of w)) }
{
    if key.member == scopes.image {
        number_stands(scopes, key.number)
    } else {
        Ok(InFront::Neither)
    }
}

// ---- rows

fn row_at(table: &Table, number: u32) -> Option<&Row>
    ensures { option_map (λ r. row_of r.now) result ≡ slice_get table.now number }
{
    table.rows().get(number as usize)
}

fn field_value(ty: &Option<Ty>) -> InFront<'_>
    ensures { in_front_of result ≡ valued.of_type (option_map ty_of ty.now) }
{
    match ty {
        None => InFront::Neither,
        Some(Ty::Class(key)) => InFront::Value(key),
        Some(_) => InFront::Neither,
    }
}

/// How what a row declares stands.
fn declared_stands<'a>(
    scopes: &Scopes<'a>,
    number: u32,
    row: &'a Row,
) -> Result<InFront<'a>, AllocError>
    requires kept { IsKept scopes.now }
    requires row { slice_get (rows_to scopes.now) number ≡ Some (row_of row.now) }
    ensures { IfOk result (λ w. StandsSo (rows_of scopes.now) (mapping_of scopes.now)
        (context_of scopes.now) (one (decl_of row.now.decl)) (in_front_of w)) }
{
    scopes.programs.after.keeps_rows();
    let _number = number;
    match &row.decl {
        Decl::Class(key) => Ok(InFront::Class(key)),
        Decl::Field(_) => Ok(field_value(&row.ty)),
        Decl::Local(key) => local_stands(scopes, key),
        Decl::Method(_) => Ok(InFront::Neither),
        Decl::Ctor(_) => Ok(InFront::Neither),
    }
}

/// How what the row of this number declares stands.
pub(crate) fn row_stands<'a>(scopes: &Scopes<'a>, number: u32) -> Result<InFront<'a>, AllocError>
    requires { IsKept scopes.now }
    ensures { IfOk result (λ w. StandsSo (rows_of scopes.now) (mapping_of scopes.now)
        (context_of scopes.now) (shown_one one (decl_at (rows_to scopes.now) number))
        (in_front_of w)) }
{
    match row_at(scopes.programs.after, number) {
        None => Ok(InFront::Neither),
        Some(row) => declared_stands(scopes, number, row),
    }
}
