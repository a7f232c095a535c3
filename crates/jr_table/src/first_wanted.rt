//! Rows by what they declare in a class.
ghost use Rattle.std.specs.Prelude.{◌≡◌, ◌<◌, ◌^◌, length};
ghost use Rattle.jr_table.specs.Firsts.{first_that};
ghost use Rattle.jr_table.specs.MemberIndex.{LinksMembers};
ghost use Rattle.jr_table.specs.Wanted.{passes, wanted_name};

use crate::entries::Entry;
use crate::wanted::{Wanted, is_wanted};
use jr_index::Linked;

fn name_of<'a>(wanted: &Wanted<'a>) -> &'a str
    ensures { result.now ≡ wanted_name wanted.now }
{
    match *wanted {
        Wanted::Field(name) => name,
        Wanted::Inner(name) => name,
        Wanted::Method(name, _) => name,
        Wanted::Virtual(name, _) => name,
    }
}

/// The first row that declares in the class what is looked for. Only the class's rows of the name
/// are looked at.
pub(crate) fn first_wanted(
    members: &Linked,
    entries: &[Entry],
    class: u32,
    wanted: &Wanted<'_>,
) -> Option<u32>
    requires few { length entries.now < 2 ^ 32 }
    requires linked { LinksMembers entries.now members.now }
    ensures { result ≡ first_that (passes wanted.now class) entries.now }
{
    let mut at = members.first(class, name_of(wanted));
    loop {
        let Some(number) = at else {
            return None;
        };
        if is_wanted(&entries[number as usize], class, wanted) {
            return Some(number);
        }
        at = members.next(number);
    }
}
