//! Declarations whose images are found by their names: by the numbers of rows, so that no key is
//! copied.
ghost use Rattle.std.specs.Prelude.{◌≡◌, [], length, IsTrue, IfOk, IfSome, Some};
ghost use Rattle.std.specs.List.{position_or_len};
ghost use Rattle.jr_table.specs.Entries.{entries_of};
ghost use Rattle.jr_table.specs.Access.{is_instance_at};
ghost use Rattle.jr_table.specs.TypeView.{class_key_of};
ghost use Rattle.jr_table.specs.KeyView.{decl_of};
ghost use Rattle.jr_table.specs.Lookup as lookup;
ghost use Rattle.jr_table.specs.Context.{IsStaticDecl, IsInstanceDecl};
ghost use Rattle.jr_lookup.specs.ScopeView.{scope_of};
ghost use Rattle.jr_spell.specs.Binds.{is_dot};
ghost use Rattle.jr_images.specs.Words.{class_name, FindsBehind};
ghost use Rattle.jr_new_words.specs.FrontView.{in_front_of};
ghost use Rattle.jr_new_words.specs.Mappings.{BecomesAt};
ghost use Rattle.jr_new_words.specs.MappingView.{keys_of};
ghost use Rattle.jr_new_words.specs.Scopes.{AreTables, IsKept};
ghost use Rattle.jr_new_words.specs.Ways as pure;
ghost use Rattle.jr_new_words.specs.StayingBy as kept;

use crate::fronts::{InFront, names_class};
use crate::programs::Tables;
use crate::scopes::Scopes;
use crate::staying::{becomes, one_row, row_decl};
use crate::ways::Way;
use jr_ast::Name;
use jr_lookup::{Scope, call_at, ctor_at, field_in_at, method_at, type_at};
use jr_table::{ClassKey, Decl, Table, Tys, lookups_are_exact};
use std::alloc::{AllocError, Global};

// ---- the row that is found

/// The row of the field of a class that a name finds.
fn field_row_in(table: &Table, scope: &Scope, class: &ClassKey, name: &Name) -> Option<u32>
    ensures { IfSome result (kept.FindsAt table.now
        (lookup.FindsFieldIn table.now (scope_of scope.now) (class_key_of class.now) name.now)) }
{
    table.keeps_rows();
    lookups_are_exact();
    let place = table.number_or_none(&scope.class);
    let class = table.number_or_none(class);
    one_row(field_in_at(table, place, class, name.as_str()))
}

/// The row of the class that a simple name finds as a type.
fn type_row(table: &Table, scope: &Scope, name: &Name) -> Option<u32>
    ensures { IfSome result (kept.FindsAt table.now
        (lookup.FindsTypeNamed table.now (scope_of scope.now) name.now)) }
{
    table.keeps_rows();
    lookups_are_exact();
    let place = table.number_or_none(&scope.class);
    one_row(type_at(table, place, name))
}

/// The row of the method that a call without a target finds.
fn call_row(
    alloc: Global,
    table: &Table,
    scope: &Scope,
    name: &Name,
    args: &Tys,
) -> Result<Option<u32>, AllocError>
    ensures { IfOk result (λ o. IfSome o (kept.FindsAt table.now
        (lookup.FindsMethodNamed table.now (scope_of scope.now) name.now args.now))) }
{
    table.keeps_rows();
    lookups_are_exact();
    let place = table.number_or_none(&scope.class);
    let kinds = table.kinds(alloc, args.as_slice())?;
    let answer = call_at(
        alloc,
        table,
        place,
        scope.is_static,
        name.as_str(),
        kinds.as_slice(),
    )?;
    Ok(one_row(answer))
}

/// The row of the method of a class that a call finds.
fn method_row(
    alloc: Global,
    table: &Table,
    scope: &Scope,
    class: &ClassKey,
    name: &Name,
    args: &Tys,
) -> Result<Option<u32>, AllocError>
    ensures { IfOk result (λ o. IfSome o (kept.FindsAt table.now
        (lookup.FindsMethodOf table.now (scope_of scope.now) (class_key_of class.now) name.now
        args.now))) }
{
    table.keeps_rows();
    lookups_are_exact();
    let place = table.number_or_none(&scope.class);
    let class = table.number_or_none(class);
    let kinds = table.kinds(alloc, args.as_slice())?;
    let answer = method_at(alloc, table, place, class, name.as_str(), kinds.as_slice())?;
    Ok(one_row(answer))
}

/// The row of the constructor that a creation of the class finds.
fn ctor_row(
    alloc: Global,
    table: &Table,
    scope: &Scope,
    class: &ClassKey,
    args: &Tys,
) -> Result<Option<u32>, AllocError>
    ensures { IfOk result (λ o. IfSome o (kept.FindsAt table.now
        (lookup.FindsCtorOf table.now (scope_of scope.now) (class_key_of class.now) args.now))) }
{
    table.keeps_rows();
    lookups_are_exact();
    let place = table.number_or_none(&scope.class);
    let class = table.number_or_none(class);
    let kinds = table.kinds(alloc, args.as_slice())?;
    let answer = ctor_at(alloc, table, place, class, kinds.as_slice())?;
    Ok(one_row(answer))
}

/// The row of the field behind the name of a class that a name finds.
fn field_row_behind(table: &Table, scope: &Scope, front: &InFront<'_>, name: &Name) -> Option<u32>
    ensures { IfSome result (kept.FindsAt table.now (FindsBehind (in_front_of front.now)
        (λ k. lookup.FindsFieldIn table.now (scope_of scope.now) k name.now))) }
{
    match *front {
        InFront::Class(class) => field_row_in(table, scope, class, name),
        InFront::Value(_) => None,
        InFront::Neither => None,
    }
}

/// The row of the method behind the name of a class that a call finds.
fn method_row_behind(
    alloc: Global,
    table: &Table,
    scope: &Scope,
    front: &InFront<'_>,
    name: &Name,
    args: &Tys,
) -> Result<Option<u32>, AllocError>
    ensures { IfOk result (λ o. IfSome o (kept.FindsAt table.now
        (FindsBehind (in_front_of front.now) (λ k. lookup.FindsMethodOf table.now
        (scope_of scope.now) k name.now args.now)))) }
{
    match *front {
        InFront::Class(class) => method_row(alloc, table, scope, class, name, args),
        InFront::Value(_) => Ok(None),
        InFront::Neither => Ok(None),
    }
}

/// The row that a name finds this way.
fn row_by(
    alloc: Global,
    table: &Table,
    scope: &Scope,
    way: &Way<'_>,
    name: &Name,
    args: &Tys,
) -> Result<Option<u32>, AllocError>
    ensures { IfOk result (λ o. IfSome o (kept.FindsBy table.now (scope_of scope.now)
        (pure.way_of way.now) name.now args.now)) }
{
    match *way {
        Way::FieldOn(class) => Ok(field_row_in(table, scope, class, name)),
        Way::FieldThrough(front, _) => Ok(field_row_behind(table, scope, &front, name)),
        Way::MethodNamed => call_row(alloc, table, scope, name, args),
        Way::MethodOn(class) => method_row(alloc, table, scope, class, name, args),
        Way::MethodThrough(front, _) => {
            method_row_behind(alloc, table, scope, &front, name, args)
        }
        Way::CtorOf(class) => ctor_row(alloc, table, scope, class, args),
        Way::TypeNamed => Ok(type_row(table, scope, name)),
        Way::Local => Ok(None),
        Way::OwnField => Ok(None),
        Way::FieldOnNone(_) => Ok(None),
        Way::FieldAbove => Ok(None),
        Way::MethodOnNone(_) => Ok(None),
        Way::MethodAbove => Ok(None),
        Way::CtorAbove => Ok(None),
        Way::TypeBehind(_) => Ok(None),
    }
}

// ---- what it declares

/// Whether a name is one word.
fn is_one_word(name: &Name) -> bool
    ensures { IsTrue result → position_or_len is_dot name.now ≡ length name.now }
{
    match name.as_str().split_once('.') {
        None => true,
        Some(_) => false,
    }
}

fn is_nameless(name: &Name) -> bool
    ensures { IsTrue result → name.now ≡ [] }
{
    name.as_str().is_empty()
}

fn is_field(decl: &Decl, name: &Name) -> bool
    ensures { IsTrue result → kept.IsField name.now (decl_of decl.now) }
{
    match decl {
        Decl::Field(key) => key.name == *name,
        Decl::Class(_) => false,
        Decl::Method(_) => false,
        Decl::Ctor(_) => false,
        Decl::Local(_) => false,
    }
}

fn is_method(decl: &Decl, name: &Name) -> bool
    ensures { IsTrue result → kept.IsMethod name.now (decl_of decl.now) }
{
    match decl {
        Decl::Method(key) => key.name == *name,
        Decl::Class(_) => false,
        Decl::Field(_) => false,
        Decl::Ctor(_) => false,
        Decl::Local(_) => false,
    }
}

fn is_class_of(key: &ClassKey, name: &Name) -> bool
    ensures { IsTrue result → (key.now.name ≡ name.now)
        × (position_or_len is_dot name.now ≡ length name.now) }
{
    if is_one_word(name) {
        key.name == *name
    } else {
        false
    }
}

fn is_class(decl: &Decl, name: &Name) -> bool
    ensures { IsTrue result → kept.IsClass name.now (decl_of decl.now) }
{
    match decl {
        Decl::Class(key) => is_class_of(key, name),
        Decl::Method(_) => false,
        Decl::Field(_) => false,
        Decl::Ctor(_) => false,
        Decl::Local(_) => false,
    }
}

fn is_ctor(decl: &Decl, name: &Name) -> bool
    ensures { IsTrue result → kept.IsCtor name.now (decl_of decl.now) }
{
    match decl {
        Decl::Ctor(_) => is_nameless(name),
        Decl::Class(_) => false,
        Decl::Method(_) => false,
        Decl::Field(_) => false,
        Decl::Local(_) => false,
    }
}

/// Whether a row is an instance member.
fn is_instance(table: &Table, number: u32) -> bool
    ensures { result ≡ is_instance_at (entries_of table.now) number }
{
    match table.entry(number) {
        None => false,
        Some(entry) => !entry.is_static,
    }
}

/// Whether the declaration of a row is no static member.
fn is_value_member(table: &Table, decl: &Decl, number: u32) -> bool
    requires { lookup.decl_at table.now number ≡ Some (decl_of decl.now) }
    ensures { IsTrue result → IsStaticDecl table.now (decl_of decl.now) → ⊥ }
{
    table.keeps_rows();
    is_instance(table, number)
}

/// Whether the declaration of a row is no instance member.
fn is_class_member(table: &Table, decl: &Decl, number: u32) -> bool
    requires { lookup.decl_at table.now number ≡ Some (decl_of decl.now) }
    ensures { IsTrue result → IsInstanceDecl table.now (decl_of decl.now) → ⊥ }
{
    table.keeps_rows();
    !is_instance(table, number)
}

fn is_field_on_value(table: &Table, decl: &Decl, name: &Name, number: u32) -> bool
    requires { lookup.decl_at table.now number ≡ Some (decl_of decl.now) }
    ensures { IsTrue result → kept.IsField name.now (decl_of decl.now)
        × (IsStaticDecl table.now (decl_of decl.now) → ⊥) }
{
    if is_value_member(table, decl, number) {
        is_field(decl, name)
    } else {
        false
    }
}

fn is_field_on_class(table: &Table, decl: &Decl, name: &Name, number: u32) -> bool
    requires { lookup.decl_at table.now number ≡ Some (decl_of decl.now) }
    ensures { IsTrue result → kept.IsField name.now (decl_of decl.now)
        × (IsInstanceDecl table.now (decl_of decl.now) → ⊥) }
{
    if is_class_member(table, decl, number) {
        is_field(decl, name)
    } else {
        false
    }
}

fn is_method_on_value(table: &Table, decl: &Decl, name: &Name, number: u32) -> bool
    requires { lookup.decl_at table.now number ≡ Some (decl_of decl.now) }
    ensures { IsTrue result → kept.IsMethod name.now (decl_of decl.now)
        × (IsStaticDecl table.now (decl_of decl.now) → ⊥) }
{
    if is_value_member(table, decl, number) {
        is_method(decl, name)
    } else {
        false
    }
}

fn is_method_on_class(table: &Table, decl: &Decl, name: &Name, number: u32) -> bool
    requires { lookup.decl_at table.now number ≡ Some (decl_of decl.now) }
    ensures { IsTrue result → kept.IsMethod name.now (decl_of decl.now)
        × (IsInstanceDecl table.now (decl_of decl.now) → ⊥) }
{
    if is_class_member(table, decl, number) {
        is_method(decl, name)
    } else {
        false
    }
}

/// Whether a field can be asked through the class, whose words are its name.
fn is_field_behind(
    table: &Table,
    front: &InFront<'_>,
    class: &ClassKey,
    decl: &Decl,
    name: &Name,
    number: u32,
) -> bool
    requires { lookup.decl_at table.now number ≡ Some (decl_of decl.now) }
    ensures { IsTrue result → (in_front_of front.now ≡ class_name (class_key_of class.now))
        × kept.IsField name.now (decl_of decl.now)
        × (IsInstanceDecl table.now (decl_of decl.now) → ⊥) }
{
    if names_class(front, class) {
        is_field_on_class(table, decl, name, number)
    } else {
        false
    }
}

/// Whether a method can be asked through the class, whose words are its name.
fn is_method_behind(
    table: &Table,
    front: &InFront<'_>,
    class: &ClassKey,
    decl: &Decl,
    name: &Name,
    number: u32,
) -> bool
    requires { lookup.decl_at table.now number ≡ Some (decl_of decl.now) }
    ensures { IsTrue result → (in_front_of front.now ≡ class_name (class_key_of class.now))
        × kept.IsMethod name.now (decl_of decl.now)
        × (IsInstanceDecl table.now (decl_of decl.now) → ⊥) }
{
    if names_class(front, class) {
        is_method_on_class(table, decl, name, number)
    } else {
        false
    }
}

/// Whether the declaration of a row has the name and can be asked this way.
fn serves(table: &Table, way: &Way<'_>, decl: &Decl, name: &Name, number: u32) -> bool
    requires { lookup.decl_at table.now number ≡ Some (decl_of decl.now) }
    ensures { IsTrue result → kept.Serves table.now (pure.way_of way.now) name.now
        (decl_of decl.now) }
{
    match *way {
        Way::FieldOn(_) => is_field_on_value(table, decl, name, number),
        Way::FieldThrough(front, class) => {
            is_field_behind(table, &front, class, decl, name, number)
        }
        Way::MethodNamed => is_method(decl, name),
        Way::MethodOn(_) => is_method_on_value(table, decl, name, number),
        Way::MethodThrough(front, class) => {
            is_method_behind(table, &front, class, decl, name, number)
        }
        Way::CtorOf(_) => is_ctor(decl, name),
        Way::TypeNamed => is_class(decl, name),
        Way::Local => false,
        Way::OwnField => false,
        Way::FieldOnNone(_) => false,
        Way::FieldAbove => false,
        Way::MethodOnNone(_) => false,
        Way::MethodAbove => false,
        Way::CtorAbove => false,
        Way::TypeBehind(_) => false,
    }
}

/// Whether a row declares what has the name and can be asked this way.
fn serves_at(table: &Table, way: &Way<'_>, name: &Name, number: u32) -> bool
    ensures { IsTrue result → kept.ServesAt table.now (pure.way_of way.now) name.now number }
{
    match row_decl(table, number) {
        None => false,
        Some(decl) => serves(table, way, decl, name, number),
    }
}

// ---- both

/// Whether what the one row declares becomes what the other declares, which has the name and can
/// be asked this way.
fn image_serves(tables: &Tables<'_>, way: &Way<'_>, name: &Name, before: u32, after: u32) -> bool
    requires { AreTables tables.now }
    ensures { IsTrue result → BecomesAt (keys_of tables.now.keys) tables.now.before.now
        tables.now.after.now before after
        × kept.ServesAt tables.now.after.now (pure.way_of way.now) name.now after }
{
    if becomes(tables, before, after) {
        serves_at(tables.after, way, name, after)
    } else {
        false
    }
}

/// Whether a name finds the image of what this row declares the way in the new program, where it
/// has the name and can be asked so.
fn finds_image(
    alloc: Global,
    scopes: &Scopes<'_>,
    way: &Way<'_>,
    name: &Name,
    args: &Tys,
    number: u32,
) -> Result<bool, AllocError>
    requires { IsKept scopes.now }
    ensures { IfOk result (λ b. IsTrue b → kept.FindsImage scopes.now (pure.way_of way.now)
        args.now name.now number) }
{
    let after = scopes.programs.after;
    let found = row_by(alloc, after, &scopes.after, way, name, args)?;
    match found {
        None => Ok(false),
        Some(image) => Ok(image_serves(&scopes.programs, way, name, number, image)),
    }
}

/// Whether a name finds a declaration the one way, and the other way in the new program its image,
/// which has the name.
pub(crate) fn stays_by(
    alloc: Global,
    scopes: &Scopes<'_>,
    name: &Name,
    from: &Way<'_>,
    types: &Tys,
    to: &Way<'_>,
    images: &Tys,
) -> Result<bool, AllocError>
    requires { IsKept scopes.now }
    ensures { IfOk result (λ b. IsTrue b → kept.StaysBy scopes.now (pure.way_of from.now)
        types.now (pure.way_of to.now) images.now name.now) }
{
    let before = scopes.programs.before;
    let found = row_by(alloc, before, &scopes.before, from, name, types)?;
    match found {
        None => Ok(false),
        Some(number) => finds_image(alloc, scopes, to, name, images, number),
    }
}
