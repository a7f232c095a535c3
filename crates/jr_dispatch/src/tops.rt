//! The highest of the methods that a method overrides.
ghost use Rattle.std.specs.Prelude.{◌≡◌, ◌↔◌, IsTrue, Some, option_map};
ghost use Rattle.jr_table.specs.Entries.{entries_of};
ghost use Rattle.jr_table.specs.Virtual.{virtual_entry};
ghost use Rattle.jr_table.specs.Looking.{own_row, is_virtual};
ghost use Rattle.jr_table.specs.Wanted.{passes};
ghost use Rattle.jr_dispatch.specs.Highest.{IsHighest, highest_of};

use jr_table::{Entry, Table, Wanted};

/// The row of a method that is neither private nor static.
pub(crate) fn virtual_entry(table: &Table, number: u32) -> Option<&Entry>
    ensures { option_map (λ e. e.now) result ≡ virtual_entry (entries_of table.now) number }
{
    let entry = table.entry(number)?;
    if entry.is_private | entry.is_static {
        None
    } else {
        Some(entry)
    }
}

/// Whether a row is the one that declares in the class what is looked for.
pub(crate) fn is_own(table: &Table, class: u32, wanted: &Wanted<'_>, number: u32) -> bool
    ensures { IsTrue result
        ↔ (own_row (entries_of table.now) (passes wanted.now) class ≡ Some number) }
{
    match table.own(class, wanted) {
        None => false,
        Some(own) => own == number,
    }
}

/// What looks for methods like this one, neither private nor static.
pub(crate) fn virtual_like(entry: &Entry) -> Wanted<'_>
    ensures { passes result ≡ is_virtual entry.now.name entry.now.params }
{
    Wanted::Virtual(entry.name.as_str(), entry.params.as_slice())
}

/// A class, if it declares what is looked for; else another.
fn higher(table: &Table, class: u32, wanted: &Wanted<'_>, lower: u32) -> u32
    ensures { result
        ≡ highest_of (own_row (entries_of table.now) (passes wanted.now) class) class lower }
{
    match table.own(class, wanted) {
        None => lower,
        Some(_) => class,
    }
}

/// The highest class, from this one upwards, that declares what is looked for; the class itself,
/// if none does.
pub(crate) fn highest(table: &Table, class: u32, wanted: &Wanted<'_>) -> u32
    ensures { IsHighest (entries_of table.now) (passes wanted.now) class result }
{
    table.keeps_rows();
    let mut top = class;
    let mut at = class;
    loop {
        let Some(parent) = table.parent_of(at) else {
            return top;
        };
        top = higher(table, parent, wanted, top);
        at = parent;
    }
}
