//! Methods over methods of superclasses (JLS 8.4.8).
ghost use Rattle.std.specs.Prelude.{◌≡◌, Some, option_map, slice_get};
ghost use Rattle.jr_table.specs.Keys.{MethodKey};
ghost use Rattle.jr_table.specs.RowView.{row_of};
ghost use Rattle.jr_table.specs.Decls.{method_decl};
ghost use Rattle.jr_table.specs.Entries.{number_of};
ghost use Rattle.jr_table.specs.HeadNotes.{overrides_badly};
ghost use Rattle.jr_table.specs.Wanted.{passes};
ghost use Rattle.jr_bind_parts.specs.OverrideClashes as pure;

use crate::override_clashes::clashes;
use crate::override_words::has_private;
use jr_table::{Row, Table, Wanted};

fn row_at(table: &Table, number: u32) -> Option<&Row>
    ensures { option_map (λ r. row_of r.now) result ≡ slice_get table.now number }
{
    table.rows().get(number as usize)
}

/// Whether a method may not stand over this one, which isn't inherited if it is private.
fn clashes_with(own: &Row, upper: &Row) -> bool
    ensures { result ≡ pure.clashes_with (row_of own.now) (row_of upper.now) }
{
    !has_private(&upper.modifiers) & clashes(own, upper)
}

/// Whether a method may not stand over that of a row.
fn clashes_at(table: &Table, number: Option<u32>, own: &Row) -> bool
    ensures { result ≡ pure.clashes_at table.now (row_of own.now) number }
{
    let Some(number) = number else {
        return false;
    };
    match row_at(table, number) {
        None => false,
        Some(upper) => clashes_with(own, upper),
    }
}

/// Whether a method may not stand over one that is looked for, which a superclass of its class
/// declares.
fn clashes_above(table: &Table, class: u32, wanted: &Wanted<'_>, own: &Row) -> bool
    ensures { result ≡ pure.clashes_above table.now (passes wanted.now) (row_of own.now) class }
{
    table.keeps_rows();
    let mut class = class;
    loop {
        let Some(parent) = table.parent_of(class) else {
            return false;
        };
        if clashes_at(table, table.own(parent, wanted), own) {
            return true;
        }
        class = parent;
    }
}

/// Whether the method of this row may not stand over one of a superclass: it has the name and the
/// parameter types of one that isn't private, and is weaker in access, differs in `static` or
/// result, or that one is final (JLS 8.4.8.1 to 8.4.8.3).
///
/// Of each superclass, only the methods of the name are looked at.
pub fn overrides_badly(table: &Table, number: u32) -> bool
    ensures { (k : MethodKey) → number_of table.now (method_decl k) ≡ Some number
        → result ≡ overrides_badly table.now k }
{
    table.keeps_rows();
    let Some(entry) = table.entry(number) else {
        return false;
    };
    let Some(own) = row_at(table, number) else {
        return false;
    };
    let wanted = Wanted::Method(entry.name.as_str(), entry.params.as_slice());
    clashes_above(table, entry.class, &wanted, own)
}
