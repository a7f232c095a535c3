//! Classes by the numbers of rows.
ghost use Rattle.std.specs.Prelude.{◌≡◌, option_map, slice_get};
ghost use Rattle.jr_table.specs.KeyView.{decl_of};
ghost use Rattle.jr_table.specs.RowView.{row_of};
ghost use Rattle.jr_table.specs.Entries.{entries_of, class_number};
ghost use Rattle.jr_table.specs.Lookup.{decl_at, shown};
ghost use Rattle.jr_table.specs.Meanings.{class_found};
ghost use Rattle.jr_table.specs.Fields as fields;
ghost use Rattle.jr_bind_expr.specs.Numbered.{is_class, in_class};

use jr_lookup::{field_in_at, member_type_at};
use jr_table::{Answer, Decl, Row, Table};

/// The row of a number.
pub fn row_at(table: &Table, number: u32) -> Option<&Row>
    ensures { option_map (λ r. row_of r.now) result ≡ slice_get table.now number }
{
    table.rows().get(number as usize)
}

/// What a row declares.
pub fn decl_at(table: &Table, number: u32) -> Option<&Decl>
    ensures { option_map (λ d. decl_of d.now) result ≡ decl_at table.now number }
{
    match table.rows().get(number as usize) {
        None => None,
        Some(row) => Some(&row.decl),
    }
}

fn is_class(decl: &Decl) -> bool
    ensures { result ≡ is_class (decl_of decl.now) }
{
    match decl {
        Decl::Class(_) => true,
        Decl::Field(_) => false,
        Decl::Method(_) => false,
        Decl::Ctor(_) => false,
        Decl::Local(_) => false,
    }
}

/// The row, if it declares a class.
fn class_at(table: &Table, number: u32) -> Option<u32>
    ensures { result
        ≡ option_map (class_number table.now) (class_found (shown table.now (Answer.One number))) }
{
    table.keeps_rows();
    match decl_at(table, number) {
        None => None,
        Some(decl) => { if is_class(decl) { Some(number) } else { None } }
    }
}

/// The class that is found, if one is.
#[tactic(auto, unfolding(jr_table::specs::Lookup::shown))]
pub fn class_found(table: &Table, answer: Answer) -> Option<u32>
    ensures { result ≡ option_map (class_number table.now) (class_found (shown table.now answer)) }
{
    match answer {
        Answer::One(number) => class_at(table, number),
        Answer::Nothing => None,
        Answer::Many(_, _) => None,
        Answer::NotAccessible(_) => None,
        Answer::FromStatic(_) => None,
    }
}

/// The member type of a class, if there is one, at a place of another (JLS 6.5.5.2).
pub fn type_in(table: &Table, place: u32, class: Option<u32>, name: &str) -> Answer
    ensures { result
        ≡ in_class class (λ c. fields.find_member_type (entries_of table.now) place c name.now) }
{
    match class {
        None => Answer::Nothing,
        Some(class) => member_type_at(table, place, class, name),
    }
}

/// The field of a class, if there is one, at a place of another (JLS 15.11.1).
pub(crate) fn field_in(table: &Table, place: u32, class: Option<u32>, name: &str) -> Answer
    ensures { result
        ≡ in_class class (λ c. fields.find_field_of (entries_of table.now) place c name.now) }
{
    match class {
        None => Answer::Nothing,
        Some(class) => field_in_at(table, place, class, name),
    }
}
