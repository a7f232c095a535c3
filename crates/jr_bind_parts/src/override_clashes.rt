//! A method over another: what may not be between them (JLS 8.4.8.1 to 8.4.8.3).
ghost use Rattle.std.specs.Prelude.{◌≡◌, option_map};
ghost use Rattle.jr_table.specs.TypeView.{ty_of};
ghost use Rattle.jr_table.specs.RowView.{row_of};
ghost use Rattle.jr_table.specs.HeadNotes as notes;

use crate::override_words::{access, has_final, has_static};
use jr_table::{Row, Ty};

fn same_type(left: &Option<Ty>, right: &Option<Ty>) -> bool
    ensures { result ≡ notes.same_type (option_map ty_of left.now) (option_map ty_of right.now) }
{
    match (left, right) {
        (None, None) => true,
        (Some(left), Some(right)) => left == right,
        (None, Some(_)) => false,
        (Some(_), None) => false,
    }
}

/// Whether a method may not stand over another: it is weaker in access, differs in `static` or
/// result, or the other is final.
pub fn clashes(own: &Row, upper: &Row) -> bool
    ensures { result ≡ notes.clashes (row_of own.now) (row_of upper.now) }
{
    let is_weaker = access(own.modifiers.as_slice()) < access(upper.modifiers.as_slice());
    let is_like = has_static(&own.modifiers) == has_static(&upper.modifiers);
    let is_same = same_type(&own.ty, &upper.ty);
    is_weaker | (!is_like | (!is_same | has_final(&upper.modifiers)))
}
