//! Faults that a declaration has by itself, and the earliest of each kind.
ghost use Rattle.std.specs.Prelude.{◌≡◌, ◌↔◌, IsTrue, List, Option, map, option_map};
ghost use Rattle.jr_table.specs.declared.kinds.DeclKind.TheVariants as kind;
ghost use Rattle.jr_table.specs.Faults.{IsReserved, WordsBad, ClassWordsBad, InitIsBad, name_at};
ghost use Rattle.jr_table.specs.Faults.{PackageLine, HasFault};
ghost use Rattle.jr_build_places.specs.Places.{place_of, IsEarliest};
ghost use Rattle.jr_build_declared.specs.DeclarationFaults.{ReservedAt, BadWordsAt, IsLeastAt};
ghost use Rattle.jr_table.specs.DeclaredItems as pure_declarations;
ghost use Rattle.jr_build_declared.specs.DeclaredView.{class_declaration_of, field_declaration_of, item_of, declaration_of};

use crate::declarations::{DeclaredClass, DeclaredField, DeclaredItem, DeclaredKind};
use crate::member_words::{Allowed, are_bad, has_word};
use jr_ast::ModWord;
use jr_build_places::places::{earlier, in_file};
use jr_text::Place;

/// Whether a class of the program may not have this name.
fn is_reserved(name: &str) -> bool
    ensures { IsTrue result ↔ IsReserved name.now }
{
    name == "Object"
        || name == "String"
        || name == "Class"
        || name == "Thread"
        || name == "Runnable"
}

/// Where an item declares a class of a reserved name.
fn reserved_at(item: &DeclaredKind<'_>) -> Option<u32>
    ensures { IsLeastAt (ReservedAt (item_of item.now)) result }
{
    match item {
        DeclaredKind::Class(class) => {
            if is_reserved(class.key.name) {
                Some(class.at)
            } else {
                None
            }
        }
        DeclaredKind::Field(_) | DeclaredKind::Method(_) | DeclaredKind::Ctor(_) => None,
    }
}

/// Whether a class's modifiers are at fault: a member class is declared `static` too.
fn class_words_bad(class: &DeclaredClass<'_>) -> bool
    ensures { IsTrue result
        ↔ ClassWordsBad (class_declaration_of class.now) (class_declaration_of class.now).key.outer }
{
    let words = class.modifiers.as_slice();
    match class.key.outer {
        None => are_bad(words, Allowed::Top),
        Some(_) => are_bad(words, Allowed::Inner) | !has_word(words, ModWord::Static),
    }
}

/// Whether an item's modifiers are at fault.
fn words_bad(item: &DeclaredKind<'_>) -> bool
    ensures { IsTrue result ↔ WordsBad (item_of item.now) }
{
    match item {
        DeclaredKind::Class(class) => class_words_bad(class),
        DeclaredKind::Field(field) => are_bad(&field.modifiers, Allowed::Field),
        DeclaredKind::Method(method) => are_bad(&method.modifiers, Allowed::Method),
        DeclaredKind::Ctor(ctor) => are_bad(&ctor.modifiers, Allowed::Ctor),
    }
}

/// Where an item's declared name stands.
pub fn name_place(item: &DeclaredKind<'_>) -> u32
    ensures { result ≡ name_at (item_of item.now) }
{
    match item {
        DeclaredKind::Class(class) => class.at,
        DeclaredKind::Field(field) => field.at,
        DeclaredKind::Method(method) => method.at,
        DeclaredKind::Ctor(ctor) => ctor.at,
    }
}

/// Where an item has modifiers that are at fault.
fn bad_words_at(item: &DeclaredKind<'_>) -> Option<u32>
    ensures { IsLeastAt (BadWordsAt (item_of item.now)) result }
{
    if words_bad(item) {
        Some(name_place(item))
    } else {
        None
    }
}

/// Where a field, if it is static, has an initializer of a form that it may not have.
fn field_init_at(field: &DeclaredField<'_>) -> Option<u32>
    ensures { IsLeastAt (InitIsBad (pure_declarations.field_item (field_declaration_of field.now))) result }
{
    match field.init {
        None => None,
        Some(init) => {
            if init.is_simple {
                None
            } else if has_word(&field.modifiers, ModWord::Static) {
                Some(init.at)
            } else {
                None
            }
        }
    }
}

/// Where an item has an initializer of a form that a static field may not have.
fn bad_init_at(item: &DeclaredKind<'_>) -> Option<u32>
    ensures { IsLeastAt (InitIsBad (item_of item.now)) result }
{
    match item {
        DeclaredKind::Field(field) => field_init_at(field),
        DeclaredKind::Class(_) | DeclaredKind::Method(_) | DeclaredKind::Ctor(_) => None,
    }
}

/// The earliest class of a reserved name.
pub fn prelude_name(declarations: &[DeclaredItem<'_>]) -> Option<Place>
    ensures { (packages : List (Option PackageLine)) →
        IsEarliest (HasFault packages (map declaration_of declarations.now) kind.PreludeName)
        (option_map place_of result) }
{
    let mut first = None;
    for declaration in declarations {
        first = earlier(
            first,
            in_file(declaration.file, reserved_at(&declaration.item)),
        );
    }
    first
}

/// The earliest modifiers that are at fault.
pub fn bad_modifiers(declarations: &[DeclaredItem<'_>]) -> Option<Place>
    ensures { (packages : List (Option PackageLine)) →
        IsEarliest (HasFault packages (map declaration_of declarations.now) kind.BadModifiers)
        (option_map place_of result) }
{
    let mut first = None;
    for declaration in declarations {
        first = earlier(
            first,
            in_file(declaration.file, bad_words_at(&declaration.item)),
        );
    }
    first
}

/// The earliest initializer of a static field that has none of its forms.
pub fn static_init(declarations: &[DeclaredItem<'_>]) -> Option<Place>
    ensures { (packages : List (Option PackageLine)) →
        IsEarliest (HasFault packages (map declaration_of declarations.now) kind.StaticInit)
        (option_map place_of result) }
{
    let mut first = None;
    for declaration in declarations {
        first = earlier(
            first,
            in_file(declaration.file, bad_init_at(&declaration.item)),
        );
    }
    first
}
