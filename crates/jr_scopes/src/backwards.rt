//! The last of a few, looked through from the end.
ghost use Rattle.std.specs.Prelude.{◌≡◌, ◌≤◌, length};
ghost use Rattle.std.specs.Str.{bytes_eq};
ghost use Rattle.jr_scopes.specs.Tracked.{last_place, name_in, number_in, same_number};
ghost use Rattle.jr_scopes.specs.declared.backwards.TheConstants.{FEW};

use crate::restoring::Known;
use jr_ast::Name;

/// So many are looked through.
pub(crate) const FEW: usize = 8;

/// The place of the last that has the name.
pub(crate) fn last_named(known: &[Known<'_>], name: &Name) -> Option<u32>
    requires { length known.now ≤ FEW }
    ensures { result ≡ last_place (λ k. bytes_eq (name_in k) name.now) known.now }
{
    let mut rest = known;
    while let [front @ .., last] = rest {
        if last.has_name(name) {
            return Some(front.len() as u32);
        }
        rest = front;
    }
    None
}

/// The place of the last that has the number.
pub(crate) fn last_numbered(known: &[Known<'_>], number: u32) -> Option<u32>
    requires { length known.now ≤ FEW }
    ensures { result ≡ last_place (λ k. same_number (number_in k) number) known.now }
{
    let mut rest = known;
    while let [front @ .., last] = rest {
        if last.has_number(number) {
            return Some(front.len() as u32);
        }
        rest = front;
    }
    None
}
