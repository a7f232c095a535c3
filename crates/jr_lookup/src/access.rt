//! Where a declaration may be named (JLS 6.6.1, 8.1.3).
ghost use Rattle.std.specs.Prelude.{◌≡◌};
ghost use Rattle.jr_table.specs.Entries.{entries_of};
ghost use Rattle.jr_table.specs.Access as pure;

use jr_table::Table;

/// The top-level class around a class, the class itself where it is no member class.
fn top_around(table: &Table, class: u32) -> u32
    ensures { result ≡ pure.top_around (entries_of table.now) class }
{
    match table.outer_of(class) {
        None => class,
        Some(outer) => outer,
    }
}

/// Whether a row is declared in the body of the top-level class around a place's class.
fn is_within(table: &Table, place: u32, number: u32) -> bool
    ensures { result ≡ pure.is_within (entries_of table.now) place number }
{
    match table.entry(number) {
        None => false,
        Some(entry) => top_around(table, entry.class) == top_around(table, place),
    }
}

/// Whether a row is accessible at a place of a class.
#[tactic(auto, unfolding(jr_table::specs::Access::is_accessible))]
pub(crate) fn is_accessible(table: &Table, place: u32, number: u32) -> bool
    ensures { result ≡ pure.is_accessible (entries_of table.now) place number }
{
    if table.is_private(number) {
        is_within(table, place, number)
    } else {
        true
    }
}

/// Whether a row is an instance member.
fn is_instance(table: &Table, number: u32) -> bool
    ensures { result ≡ pure.is_instance_at (entries_of table.now) number }
{
    match table.entry(number) {
        None => false,
        Some(entry) => !entry.is_static,
    }
}

/// Whether a member of a class has no object at a place.
#[tactic(auto, unfolding(jr_table::specs::Access::lacks_object))]
pub(crate) fn lacks_object(
    table: &Table,
    place: u32,
    is_static: bool,
    class: u32,
    number: u32,
) -> bool
    ensures { result ≡ pure.lacks_object (entries_of table.now) place is_static class number }
{
    is_instance(table, number) & (is_static | (class != place))
}
