//! Direct superclasses by key (JLS 8.1.4).
ghost use Rattle.std.specs.Prelude.{◌≡◌, option_map, option_and_then, slice_get};
ghost use Rattle.jr_table.specs.TypeView.{class_key_of};
ghost use Rattle.jr_table.specs.Rows.{Row};
ghost use Rattle.jr_table.specs.Meanings.{superclass_of};

use jr_table::{ClassKey, Table};

/// The superclass in a row.
fn parent_in(table: &Table, number: u32) -> Option<&ClassKey>
    ensures { option_map (λ k. class_key_of k.now) result
        ≡ option_and_then (λ (r : Row). r.parent) (slice_get table.now number) }
{
    match table.rows().get(number as usize) {
        None => None,
        Some(row) => match &row.parent {
            None => None,
            Some(key) => Some(key),
        },
    }
}

/// The direct superclass of a class.
#[tactic(auto, unfolding(jr_table::specs::Meanings::row_of))]
pub(crate) fn superclass<'a>(table: &'a Table, class: &ClassKey) -> Option<&'a ClassKey>
    ensures { option_map (λ k. class_key_of k.now) result
        ≡ superclass_of table.now (class_key_of class.now) }
{
    match table.class_number(class) {
        None => None,
        Some(number) => parent_in(table, number),
    }
}
