//! Which members keep what is bound of them.
ghost use Rattle.std.specs.Prelude.{◌≡◌, IsTrue, Some, true, map, slice_get};
ghost use Rattle.jr_table.specs.KeyView.{member_key_of};
ghost use Rattle.jr_members.specs.PartView.{part_of, written_of};
ghost use Rattle.jr_mentions.specs.ApartView.{names_in};
ghost use Rattle.jr_mentions.specs.Avoids.{AvoidsPart};
ghost use Rattle.jr_cache.specs.RebindSteps.{IsSpared, Keeps, AreOfSameFiles};

use jr_members::{PartRef, WrittenMember};
use jr_mentions::Apart;
use jr_program::MemberBound;
use jr_table::{Facts, MemberKey};
use jr_text::Span;

/// Whether the file is one that stays.
fn stays_at(stays: &[bool], file: u32) -> bool
    ensures { IsTrue result → slice_get stays.now file ≡ Some true }
{
    match stays.get(file as usize) {
        None => false,
        Some(stays) => *stays,
    }
}

fn spares_part(names: &Apart<'_>, part: &PartRef<'_, Span>) -> bool
    ensures { IsTrue result → AvoidsPart (names_in names.now) (part_of part.now) }
{
    match part {
        PartRef::Head(_) => true,
        PartRef::Member(member) => names.spares(member),
    }
}

fn spares(names: &Apart<'_>, written: &WrittenMember<'_, Span>) -> bool
    ensures { IsTrue result → IsSpared (names_in names.now) (written_of written.now) }
{
    if names.spares_key(&written.key) {
        spares_part(names, &written.part)
    } else {
        false
    }
}

fn has_key(bound: &MemberBound, key: &MemberKey) -> bool
    ensures { IsTrue result → bound.now.bound.member ≡ member_key_of key.now }
{
    *bound.bound.member() == *key
}

/// Whether a member keeps what was bound in its place.
pub(crate) fn keeps(
    names: &Apart<'_>,
    stays: &[bool],
    written: &WrittenMember<'_, Span>,
    bound: &MemberBound,
) -> bool
    ensures { IsTrue result
        → Keeps (names_in names.now) stays.now (written_of written.now) bound.now }
{
    if !stays_at(stays, written.file) {
        return false;
    }
    if !has_key(bound, &written.key) {
        return false;
    }
    spares(names, written)
}

/// Whether the members of each number are of one file.
pub(crate) fn same_files(written: &[WrittenMember<'_, Span>], earlier: &[MemberBound]) -> bool
    ensures { IsTrue result → AreOfSameFiles (map written_of written.now) earlier.now }
{
    if written.len() != earlier.len() {
        return false;
    }
    for number in 0..written.len() {
        let same = written[number].file == earlier[number].file;
        if !same {
            return false;
        }
    }
    true
}
