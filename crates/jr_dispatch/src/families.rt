//! The declarations that are renamed with one.
ghost use Rattle.std.specs.Prelude.{◌≡◌, ◌↔◌, ◌⊎◌, ◌∷◌, [], IsTrue, IfOk, OnOk, map, length};
ghost use Rattle.std.specs.Prelude.{option_map, slice_get};
ghost use Rattle.jr_table.specs.Decls.{method_decl};
ghost use Rattle.jr_table.specs.Decls as pure;
ghost use Rattle.jr_table.specs.Entries.{IsRowOf, entries_of};
ghost use Rattle.jr_table.specs.KeyView.{method_key_of, decl_of};
ghost use Rattle.jr_table.specs.RowView.{row_of};
ghost use Rattle.jr_images.specs.Families.{Among, AreRenamed};
ghost use Rattle.jr_dispatch.specs.Highest.{IsBelow, HasBelow};

use crate::tops::{highest, is_own, virtual_entry};
use jr_table::{Decl, Entry, MethodKey, Row, Table, Wanted};
use std::alloc::{AllocError, Global};

/// The declaration alone.
fn alone(alloc: Global, target: &Decl) -> Result<Vec<Decl>, AllocError>
    ensures { IfOk result (λ ds. map decl_of ds.items ≡ decl_of target.now ∷ []) }
{
    let mut decls = Vec::new(alloc);
    let decl = target.copy()?;
    decls.push(decl)?;
    Ok(decls)
}

/// Whether a row declares a method like this one, in a class or a subclass of it.
fn is_below(table: &Table, over: &Entry, top: u32, number: u32) -> bool
    ensures { IsTrue result
        ↔ IsBelow (entries_of table.now) over.now.name over.now.params top number }
{
    table.keeps_rows();
    let Some(entry) = table.entry(number) else {
        return false;
    };
    if entry.name != over.name {
        return false;
    }
    let wanted = Wanted::Virtual(over.name.as_str(), over.params.as_slice());
    if !is_own(table, entry.class, &wanted, number) {
        return false;
    }
    table.is_subclass_at(entry.class, top)
}

fn row_at(table: &Table, number: u32) -> Option<&Row>
    ensures { option_map (λ r. row_of r.now) result ≡ slice_get table.now number }
{
    table.rows().get(number as usize)
}

/// Puts the declaration of a row behind the others, if it is such a method.
fn push_below(
    table: &Table,
    over: &Entry,
    top: u32,
    number: u32,
    decls: &mut Vec<Decl>,
) -> Result<(), AllocError>
    ensures { OnOk result ((e : pure.Decl) → Among (map decl_of decls.new.items) e
        ↔ (Among (map decl_of decls.old.items) e
        ⊎ (IsBelow (entries_of table.now) over.now.name over.now.params top number
        × IsRowOf table.now e number))) }
{
    if !is_below(table, over, top, number) {
        return Ok(());
    }
    let Some(row) = row_at(table, number) else {
        return Ok(());
    };
    let decl = row.decl.copy()?;
    decls.push(decl)?;
    Ok(())
}

/// All such methods, in the order of their rows.
fn all_below(alloc: Global, table: &Table, over: &Entry, top: u32) -> Result<Vec<Decl>, AllocError>
    ensures { IfOk result (λ ds. (e : pure.Decl) → Among (map decl_of ds.items) e
        ↔ HasBelow table.now over.now.name over.now.params top (length table.now) e) }
{
    let mut decls = Vec::new(alloc);
    for number in 0..table.count() {
        push_below(table, over, top, number, &mut decls)?;
    }
    Ok(decls)
}

/// The family of a method: it and all that are connected to it by overriding. Of the methods that
/// it overrides the highest is found, class by class upwards; the family is what overrides that
/// one, which one walk over the rows gives.
fn methods(
    alloc: Global,
    table: &Table,
    target: &Decl,
    key: &MethodKey,
) -> Result<Vec<Decl>, AllocError>
    requires { decl_of target.now ≡ method_decl (method_key_of key.now) }
    ensures { IfOk result (λ ds.
        AreRenamed table.now (decl_of target.now) (map decl_of ds.items)) }
{
    table.keeps_rows();
    let Some(number) = table.method_number(key) else {
        return alone(alloc, target);
    };
    let Some(over) = virtual_entry(table, number) else {
        return alone(alloc, target);
    };
    let wanted = Wanted::Virtual(over.name.as_str(), over.params.as_slice());
    let top = highest(table, over.class, &wanted);
    all_below(alloc, table, over, top)
}

/// Exactly the declarations that are renamed with this one: of a method all that are connected to
/// it by overriding, up, down, and sideways by a common one above or below; else it alone
/// (JLS 8.4.8.1).
///
/// Each row is looked at once, and only those of the method's name are asked for more.
pub fn family(alloc: Global, table: &Table, target: &Decl) -> Result<Vec<Decl>, AllocError>
    ensures { IfOk result (λ ds.
        AreRenamed table.now (decl_of target.now) (map decl_of ds.items)) }
{
    match target {
        Decl::Method(key) => methods(alloc, table, target, key),
        Decl::Class(_) => alone(alloc, target),
        Decl::Field(_) => alone(alloc, target),
        Decl::Ctor(_) => alone(alloc, target),
        Decl::Local(_) => alone(alloc, target),
    }
}
