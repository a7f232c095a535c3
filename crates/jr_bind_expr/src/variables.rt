//! Variables by simple names (JLS 6.3, 6.4.1).
ghost use Rattle.std.specs.Prelude.{◌≡◌};
ghost use Rattle.jr_table.specs.Context.{scope_of};
ghost use Rattle.jr_table.specs.Lookup.{find_variable};
ghost use Rattle.jr_bind_expr.specs.Places.{context_of, member_of, Knows};
ghost use Rattle.jr_bind_expr.specs.Findings.{found_of};

use crate::findings::Finding;
use crate::places::Place;
use jr_ast::Name;
use jr_lookup::field_at;
use jr_table::Table;

/// What a simple name finds as a variable: the local or parameter in scope; or else the member
/// field of the innermost enclosing class that has one (JLS 6.4.1).
#[tactic(auto, unfolding(jr_table::specs::Lookup::find_variable, crate::specs::Places::context_of))]
pub(crate) fn variable(table: &Table, place: &Place<'_>, name: &Name) -> Finding
    requires { Knows table.now place.now }
    ensures { found_of table.now (member_of place.now) result
        ≡ find_variable table.now (scope_of (context_of place.now)) name.now }
{
    match place.locals.number_named(name) {
        Some(number) => Finding::Local(number),
        None => Finding::Rows(field_at(table, place.class, place.is_static, name.as_str())),
    }
}
