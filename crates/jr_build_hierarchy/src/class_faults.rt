//! Classes whose superclass isn't found, and classes that are their own superclass through others.
ghost use Rattle.std.specs.Prelude.{◌≡◌, ◌<◌, ◌+◌, ◌^◌, IfOk, Some};
ghost use Rattle.std.specs.Prelude.{List, Option, length, map, option_map};
ghost use Rattle.jr_table.specs.declared.kinds.DeclKind.TheVariants as kind;
ghost use Rattle.jr_table.specs.Faults.{PackageLine, HasFault};
ghost use Rattle.jr_build_places.specs.Places.{place_of, IsEarliest};
ghost use Rattle.jr_build_declared.specs.DeclaredView.{item_of, declaration_of, written_of};
ghost use Rattle.jr_build_hierarchy.specs.HierarchyView.{hierarchy_of};
ghost use Rattle.jr_build_hierarchy.specs.Superclasses.{IsHierarchy};
ghost use Rattle.jr_build_hierarchy.specs.Superclasses.{unparented_in, unparented_of, on_cycle_of};

use crate::hierarchies::Hierarchy;
use jr_build_declared::declarations::{DeclaredItem, DeclaredKind, Written};
use jr_build_places::places::{earlier, in_file};
use jr_index::on_cycle;
use jr_text::Place;
use std::alloc::{AllocError, Global};

/// Where a class writes its superclass, if it has none.
fn unparented_in(written: &Option<Written<'_>>, parent: Option<u32>) -> Option<u32>
    ensures { result ≡ unparented_in (option_map written_of written.now) parent }
{
    match written {
        None => None,
        Some(written) => named_without(written, parent),
    }
}

/// Where that superclass is written, if there is none.
fn named_without(written: &Written<'_>, parent: Option<u32>) -> Option<u32>
    ensures { result ≡ unparented_in (Some (written_of written.now)) parent }
{
    match written {
        Written::Int | Written::Boolean => None,
        Written::Named {
            at,
            outer: _,
            name: _,
        } => match parent {
            None => Some(*at),
            Some(_) => None,
        },
    }
}

/// Where a class names a superclass that it hasn't.
fn unparented_at(item: &DeclaredKind<'_>, parent: Option<u32>) -> Option<u32>
    ensures { result ≡ unparented_of (item_of item.now) parent }
{
    match item {
        DeclaredKind::Class(class) => unparented_in(&class.parent, parent),
        DeclaredKind::Field(_) | DeclaredKind::Method(_) | DeclaredKind::Ctor(_) => None,
    }
}

/// The earliest name of a superclass that isn't found (JLS 8.1.4).
pub fn no_superclass<'a>(
    declarations: &[DeclaredItem<'a>],
    hierarchy: &Hierarchy<'a>,
) -> Option<Place>
    requires few { length declarations.now + 4 < 2 ^ 32 }
    requires is { IsHierarchy (map declaration_of declarations.now) (hierarchy_of hierarchy.now) }
    ensures { (packages : List (Option PackageLine)) →
        IsEarliest (HasFault packages (map declaration_of declarations.now) kind.NoSuperclass)
        (option_map place_of result) }
{
    let mut first = None;
    for (number, declaration) in declarations.iter().enumerate() {
        let at = unparented_at(&declaration.item, hierarchy.parent_at(number as u32));
        first = earlier(first, in_file(declaration.file, at));
    }
    first
}

/// Where an item is a class that is on a cycle.
fn on_cycle_at(item: &DeclaredKind<'_>, on: bool) -> Option<u32>
    ensures { result ≡ on_cycle_of (item_of item.now) on }
{
    match item {
        DeclaredKind::Class(class) => { if on { Some(class.at) } else { None } }
        DeclaredKind::Field(_) | DeclaredKind::Method(_) | DeclaredKind::Ctor(_) => None,
    }
}

/// The earliest class that is its own superclass through others (JLS 8.1.4).
pub fn cycle<'a>(
    alloc: Global,
    declarations: &[DeclaredItem<'a>],
    hierarchy: &Hierarchy<'a>,
) -> Result<Option<Place>, AllocError>
    requires few { length declarations.now + 4 < 2 ^ 32 }
    requires is { IsHierarchy (map declaration_of declarations.now) (hierarchy_of hierarchy.now) }
    ensures { IfOk result (λ place. (packages : List (Option PackageLine)) →
        IsEarliest (HasFault packages (map declaration_of declarations.now) kind.Cycle)
        (option_map place_of place)) }
{
    let on = on_cycle(alloc, &hierarchy.parents)?;
    let mut first = None;
    for (number, declaration) in declarations.iter().enumerate() {
        let at = on_cycle_at(&declaration.item, on[number]);
        first = earlier(first, in_file(declaration.file, at));
    }
    Ok(first)
}
