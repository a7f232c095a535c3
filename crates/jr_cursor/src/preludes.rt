//! Declarations of the prelude.
ghost use Rattle.std.specs.Prelude.{◌≡◌, ◌↔◌, Some, IsTrue, option_map, slice_get};
ghost use Rattle.jr_table.specs.Entries.{IsRowOf};
ghost use Rattle.jr_table.specs.KeyView.{decl_of};
ghost use Rattle.jr_table.specs.RowView.{row_of};
ghost use Rattle.jr_images.specs.Targets.{IsOfPrelude};
ghost use Rattle.jr_cursor.specs.Names.{Finds};

use jr_table::{Decl, Row, Table};

/// How many rows the prelude has.
const PRELUDE: usize = 8;

/// The row of a number.
fn row_at(table: &Table, number: usize) -> Option<&Row>
    ensures { option_map (λ r. row_of r.now) result ≡ slice_get table.now number }
{
    table.rows().get(number)
}

/// Whether the row of a number declares it.
fn is_row_of(table: &Table, number: usize, decl: &Decl) -> bool
    ensures { IsTrue result ↔ IsRowOf table.now (decl_of decl.now) number }
{
    match row_at(table, number) {
        None => false,
        Some(row) => row.decl == *decl,
    }
}

/// Whether a declaration is one of the prelude's.
fn is_of_prelude(table: &Table, decl: &Decl) -> bool
    ensures { IsTrue result ↔ IsOfPrelude table.now (decl_of decl.now) }
{
    for number in 0..PRELUDE {
        if is_row_of(table, number, decl) {
            return true;
        }
    }
    false
}

/// A declaration, unless it is one of the prelude's.
fn foreign(table: &Table, decl: Decl) -> Option<Decl>
    ensures { Finds table.now (λ d. decl_of decl ≡ d) (option_map decl_of result) }
{
    if is_of_prelude(table, &decl) {
        drop(decl);
        None
    } else {
        Some(decl)
    }
}

/// What is found, unless it is one of the prelude's.
pub(crate) fn foreign_found(table: &Table, found: Option<Decl>) -> Option<Decl>
    ensures { Finds table.now (λ d. option_map decl_of found ≡ Some d) (option_map decl_of result) }
{
    match found {
        None => None,
        Some(decl) => foreign(table, decl),
    }
}
