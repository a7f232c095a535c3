//! Fields and member types, by the numbers of rows (JLS 6.4.1, 6.5.6.1, 15.11).
ghost use Rattle.std.specs.Prelude.{◌≡◌};
ghost use Rattle.jr_table.specs.Entries.{entries_of};
ghost use Rattle.jr_table.specs.Fields as pure;

use crate::access::{is_accessible, lacks_object};
use jr_table::{Answer, Table, Wanted};

/// The answer for a member of a class that a simple name finds.
pub(crate) fn object_answer(
    table: &Table,
    place: u32,
    is_static: bool,
    class: u32,
    number: u32,
) -> Answer
    ensures { result ≡ pure.object_answer (entries_of table.now) place is_static class number }
{
    if lacks_object(table, place, is_static, class, number) {
        Answer::FromStatic(number)
    } else {
        Answer::One(number)
    }
}

/// The answer from the class around.
fn field_around(
    table: &Table,
    place: u32,
    is_static: bool,
    name: &str,
    outer: Option<u32>,
) -> Answer
    ensures { result ≡ pure.field_around (entries_of table.now) place is_static name.now outer }
{
    let Some(class) = outer else {
        return Answer::Nothing;
    };
    match table.member(class, &Wanted::Field(name)) {
        None => Answer::Nothing,
        Some(number) => object_answer(table, place, is_static, class, number),
    }
}

/// The field that a simple name finds at a place of a class: the member field of the innermost
/// enclosing class that has one (JLS 6.4.1). `FromStatic` where it is an instance field without an
/// object there (JLS 8.1.3).
#[tactic(auto, unfolding(jr_table::specs::Fields::find_field))]
pub fn field_at(table: &Table, place: u32, is_static: bool, name: &str) -> Answer
    ensures { result ≡ pure.find_field (entries_of table.now) place is_static name.now }
{
    match table.member(place, &Wanted::Field(name)) {
        Some(number) => object_answer(table, place, is_static, place, number),
        None => field_around(table, place, is_static, name, table.outer_of(place)),
    }
}

/// The answer for a class's member, with access.
fn access_answer(table: &Table, place: u32, member: Option<u32>) -> Answer
    ensures { result ≡ pure.access_answer (entries_of table.now) place member }
{
    match member {
        None => Answer::Nothing,
        Some(number) => {
            if is_accessible(table, place, number) {
                Answer::One(number)
            } else {
                Answer::NotAccessible(number)
            }
        }
    }
}

/// The field of a class, named at a place of another (JLS 15.11.1, 6.6.1).
#[tactic(auto, unfolding(jr_table::specs::Fields::find_field_of))]
pub fn field_in_at(table: &Table, place: u32, class: u32, name: &str) -> Answer
    ensures { result ≡ pure.find_field_of (entries_of table.now) place class name.now }
{
    access_answer(table, place, table.member(class, &Wanted::Field(name)))
}

/// The member type of a class, named at a place of another (JLS 6.5.5.2, 6.6.1).
#[tactic(auto, unfolding(jr_table::specs::Fields::find_member_type))]
pub fn member_type_at(table: &Table, place: u32, class: u32, name: &str) -> Answer
    ensures { result ≡ pure.find_member_type (entries_of table.now) place class name.now }
{
    access_answer(table, place, table.member(class, &Wanted::Inner(name)))
}
