//! Classes that are declared twice, and classes that have the name of a field or method beside
//! them.
ghost use Rattle.std.specs.Prelude.{◌≡◌, ◌<◌, ◌^◌, ◌↔◌, IsTrue, IfOk, List, Option, length, map};
ghost use Rattle.std.specs.Prelude.{option_map};
ghost use Rattle.jr_table.specs.declared.kinds.DeclKind.TheVariants as kind;
ghost use Rattle.jr_table.specs.Faults.{PackageLine, HasFault, IsNamedAsOuter};
ghost use Rattle.jr_build_declared.specs.KeyIndex.{class_key_at, key_in, name_key_at, IsIndexOf};
ghost use Rattle.jr_build_places.specs.Places.{place_of, IsEarliest};
ghost use Rattle.jr_build_declared.specs.DeclarationFaults.{named_twice, twice_of, member_named};
ghost use Rattle.jr_build_declared.specs.DeclaredView.{declaration_key_of, item_of, declaration_of};

use crate::declarations::{DeclaredItem, DeclaredKey, DeclaredKind};
use crate::key_index::KeyIndex;
use jr_build_places::places::{earlier, in_file};
use jr_text::Place;
use std::alloc::{AllocError, Global};

/// Whether a class has the name of the class that it is a member of.
fn is_named_as_outer(key: &DeclaredKey<'_>) -> bool
    ensures { IsTrue result ↔ IsNamedAsOuter (declaration_key_of key.now) }
{
    match key.outer {
        None => false,
        Some(outer) => outer == key.name,
    }
}

/// Where a class is at fault of which another was under its key before, or wasn't.
fn class_twice_at(key: &DeclaredKey<'_>, at: u32, before: Option<u32>) -> Option<u32>
    ensures { result ≡ named_twice (declaration_key_of key.now) at before }
{
    match before {
        Some(_) => Some(at),
        None => {
            if is_named_as_outer(key) {
                Some(at)
            } else {
                None
            }
        }
    }
}

/// Where an item is a class that is declared twice.
fn twice_at(item: &DeclaredKind<'_>, before: Option<u32>) -> Option<u32>
    ensures { result ≡ twice_of (item_of item.now) before }
{
    match item {
        DeclaredKind::Class(class) => class_twice_at(&class.key, class.at, before),
        DeclaredKind::Field(_) | DeclaredKind::Method(_) | DeclaredKind::Ctor(_) => None,
    }
}

/// The class that an item declares.
pub fn class_key<'a>(item: &DeclaredKind<'a>) -> Option<DeclaredKey<'a>>
    ensures { option_map declaration_key_of result ≡ class_key_at (item_of item.now) }
{
    match item {
        DeclaredKind::Class(class) => Some(class.key),
        DeclaredKind::Field(_) | DeclaredKind::Method(_) | DeclaredKind::Ctor(_) => None,
    }
}

/// The earliest class that is declared a second time, or that has the name of the class around it.
pub fn twice_class(
    alloc: Global,
    declarations: &[DeclaredItem<'_>],
) -> Result<Option<Place>, AllocError>
    requires { length declarations.now < 2 ^ 32 }
    ensures { IfOk result (λ place. (packages : List (Option PackageLine)) →
        IsEarliest (HasFault packages (map declaration_of declarations.now) kind.TwiceClass)
        (option_map place_of place)) }
{
    let mut index = KeyIndex::new(alloc);
    let mut first = None;
    for (number, declaration) in declarations.iter().enumerate() {
        let before = index.put_maybe(&class_key(&declaration.item), number as u32)?;
        first = earlier(
            first,
            in_file(declaration.file, twice_at(&declaration.item, before)),
        );
    }
    Ok(first)
}

/// The key that a member class of this name would have, where the class around it is this one.
fn member_key<'a>(of: &DeclaredKey<'a>, name: &'a str) -> Option<DeclaredKey<'a>>
    ensures { option_map declaration_key_of result
        ≡ key_in (declaration_key_of of.now).outer (declaration_key_of of.now).name name.now }
{
    match of.outer {
        None => Some(DeclaredKey {
            outer: Some(of.name),
            name,
        }),
        Some(_) => None,
    }
}

/// The key that a member class of a field's or method's name would have.
fn name_key<'a>(item: &DeclaredKind<'a>) -> Option<DeclaredKey<'a>>
    ensures { option_map declaration_key_of result ≡ name_key_at (item_of item.now) }
{
    match item {
        DeclaredKind::Field(field) => member_key(&field.of, field.name.as_str()),
        DeclaredKind::Method(method) => member_key(&method.of, method.name.as_str()),
        DeclaredKind::Class(_) | DeclaredKind::Ctor(_) => None,
    }
}

/// The fields and methods of top-level classes by their names.
fn names_of_members<'a>(
    alloc: Global,
    declarations: &[DeclaredItem<'a>],
) -> Result<KeyIndex<'a>, AllocError>
    requires { length declarations.now < 2 ^ 32 }
    ensures { IfOk result (λ index.
        IsIndexOf name_key_at (map declaration_of declarations.now) (length declarations.now) index) }
{
    let mut index = KeyIndex::new(alloc);
    for (number, declaration) in declarations.iter().enumerate() {
        index.put_maybe(&name_key(&declaration.item), number as u32)?;
    }
    Ok(index)
}

/// Where an item is a class that has the name of a field or method of the class around it.
fn member_named_at<'a>(index: &KeyIndex<'a>, item: &DeclaredKind<'a>) -> Option<u32>
    ensures { result ≡ member_named index.now (item_of item.now) }
{
    match item {
        DeclaredKind::Class(class) => match index.find(&class.key) {
            None => None,
            Some(_) => Some(class.at),
        },
        DeclaredKind::Field(_) | DeclaredKind::Method(_) | DeclaredKind::Ctor(_) => None,
    }
}

/// The earliest member class that has the name of a field or method of the class around it.
pub fn member_type_name(
    alloc: Global,
    declarations: &[DeclaredItem<'_>],
) -> Result<Option<Place>, AllocError>
    requires { length declarations.now < 2 ^ 32 }
    ensures { IfOk result (λ place. (packages : List (Option PackageLine)) →
        IsEarliest (HasFault packages (map declaration_of declarations.now) kind.MemberTypeName)
        (option_map place_of place)) }
{
    let index = names_of_members(alloc, declarations)?;
    let mut first = None;
    for declaration in declarations {
        first = earlier(
            first,
            in_file(declaration.file, member_named_at(&index, &declaration.item)),
        );
    }
    Ok(first)
}
