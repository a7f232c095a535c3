//! Types by simple names, by the numbers of rows (JLS 6.4.1, 6.5.5.1).
ghost use Rattle.std.specs.Prelude.{◌≡◌};
ghost use Rattle.jr_table.specs.Entries.{entries_of};
ghost use Rattle.jr_table.specs.Looking.{first_of};
ghost use Rattle.jr_table.specs.TypeNames as pure;

use jr_ast::Name;
use jr_table::{Answer, Table, Wanted};

/// The member type of the class around.
fn member_in(table: &Table, name: &Name, outer: Option<u32>) -> Option<u32>
    ensures { result ≡ pure.member_in (entries_of table.now) name.now outer }
{
    match outer {
        None => None,
        Some(class) => table.member(class, &Wanted::Inner(name.as_str())),
    }
}

fn one_or_nothing(number: Option<u32>) -> Answer
    ensures { result ≡ pure.one_or_nothing number }
{
    match number {
        None => Answer::Nothing,
        Some(number) => Answer::One(number),
    }
}

/// The type that a simple name finds at a place of a class: the member type of the innermost
/// enclosing class that has one; or else the top-level class or the prelude's (JLS 6.5.5.1).
#[tactic(auto, unfolding(jr_table::specs::TypeNames::find_type))]
pub fn type_at(table: &Table, place: u32, name: &Name) -> Answer
    ensures { result ≡ pure.find_type table.now place name.now }
{
    if let Some(number) = table.member(place, &Wanted::Inner(name.as_str())) {
        return Answer::One(number);
    }
    if let Some(number) = member_in(table, name, table.outer_of(place)) {
        return Answer::One(number);
    }
    one_or_nothing(table.top_number(name))
}
