//! The lines of a file's members.
ghost use Rattle.std.specs.Prelude.{◌≡◌, ◌≤◌, ℕ, List, Some, true, map, slice_get};
ghost use Rattle.std.specs.Prelude.{IfOk, OnOk, IsFalse};
ghost use Rattle.jr_lex.specs.declared.items.Item.{Item};
ghost use Rattle.jr_ast.specs.View.{member_of};
ghost use Rattle.jr_names.specs.DeclTexts.{member_text};
ghost use Rattle.jr_table.specs.Decls as keys;
ghost use Rattle.jr_table.specs.Errors.{member_part};
ghost use Rattle.jr_table.specs.KeyView.{member_key_of};
ghost use Rattle.jr_members.specs.PartView.{part_of, written_of};
ghost use Rattle.jr_program.specs.Members.{AreEachBound, EachOf, IsEachBound};
ghost use Rattle.jr_dependence_lines.specs.MemberLines.{CanShow, CanShowPart, in_file};
ghost use Rattle.jr_dependence_lines.specs.Tallies.{HasLen, IsBoundMember, IsShown, IsTold, IsTooMany};
ghost use Rattle.jr_dependence_lines.specs.Tallies.{PutsGraph, PutsMember, PutsMembers, PutsPart};

use crate::member_lines::put_graph;
use crate::tallies::{Tally, begin};
use jr_ast::{Member, Name};
use jr_member_graphs::{CfgFault, SiteGraph, member_graph};
use jr_members::{PartRef, WrittenMember};
use jr_names::member_text as text_of_member;
use jr_program::MemberBound;
use jr_table::{Facts, MemberKey, Table};
use jr_text::Span;
use std::alloc::{AllocError, Global};

/// What is shown of the dependences in a file.
#[derive(Drop)]
pub enum Shown {
    /// Nothing, since a member has more than 1,000 sites: the first, and how many it has.
    TooManySites { member: MemberKey, count: u32 },
    /// The lines, and how many bytes they have with those that were there before. Where these are
    /// more than the limit no line is there.
    Lines { texts: Vec<Name>, len: u64 },
}

// Puts the lines of a graph that was made of a member.
fn put_bound(
    alloc: Global,
    bound: &MemberBound,
    graph: &SiteGraph,
    tally: &mut Tally,
) -> Result<(), AllocError>
    ensures { OnOk result (PutsGraph (member_text bound.now.bound.member) bound.now.start graph.now
        tally.old tally.new) }
{
    let head = text_of_member(alloc, bound.bound.member())?;
    put_graph(alloc, head.as_str(), bound.start, graph, tally)
}

// Puts the lines of a member whose parent begins at `base`, or tells how many sites it has, if
// these are too many.
fn put_member(
    alloc: Global,
    table: &Table,
    base: u32,
    member: &Member<Span>,
    bound: &MemberBound,
    tally: &mut Tally,
) -> Result<Option<u32>, AllocError>
    requires { CanShowPart bound.now.bound.member base (member_part (member_of member.now)) }
    ensures { (items : List Item) (key : keys.MemberKey)
        → IsBoundMember table.now items key base (member_of member.now) bound.now
        → IfOk result (PutsPart table.now items key base (member_part (member_of member.now))
        tally.old tally.new) }
{
    match member_graph(alloc, table, member, base, bound.super_at, &bound.bound) {
        Err(CfgFault::Memory) => Err(AllocError),
        Err(CfgFault::TooManySites { count }) => Ok(Some(count)),
        Ok(graph) => {
            put_bound(alloc, bound, &graph, tally)?;
            Ok(None)
        }
    }
}

// The same of a part. The head of a class has no sites.
fn put_part(
    alloc: Global,
    table: &Table,
    written: &WrittenMember<'_, Span>,
    bound: &MemberBound,
    tally: &mut Tally,
) -> Result<Option<u32>, AllocError>
    requires { CanShowPart bound.now.bound.member written.now.base (part_of written.now.part) }
    ensures { (files : List (List Item)) (items : List Item)
        → IsEachBound table.now files (written_of written.now) bound.now
        → slice_get files written.now.file ≡ Some items
        → IfOk result (PutsMember table.now items (written_of written.now) tally.old tally.new) }
{
    match &written.part {
        PartRef::Head(_) => Ok(None),
        PartRef::Member(member) => put_member(alloc, table, written.base, member, bound, tally),
    }
}

/// A member that has too many sites, and how many.
#[derive(Clone, Copy, Drop)]
struct Large<'a> {
    member: &'a MemberKey,
    count: u32,
}

// Puts the lines of the members of a file, one behind the other, up to the first that has too many
// sites.
fn put_members<'a>(
    alloc: Global,
    table: &Table,
    file: u32,
    written: &[WrittenMember<'_, Span>],
    bounds: &'a [MemberBound],
    tally: &mut Tally,
) -> Result<Option<Large<'a>>, AllocError>
    requires bound { (files : List (List Item))
        × AreEachBound table.now files (map written_of written.now) bounds.now }
    requires can { EachOf CanShow (map written_of written.now) }
    ensures { (files : List (List Item)) (items : List Item)
        → AreEachBound table.now files (map written_of written.now) bounds.now
        → slice_get files file ≡ Some items
        → IfOk result (PutsMembers table.now items (in_file file (map written_of written.now))
        tally.old tally.new) }
{
    for number in 0..bounds.len() {
        let member = &written[number];
        if member.file == file {
            let bound = &bounds[number];
            if let Some(count) = put_part(alloc, table, member, bound, tally)? {
                let member = bound.bound.member();
                return Ok(Some(Large { member, count }));
            }
        }
    }
    Ok(None)
}

fn too_many_sites(large: &Large<'_>) -> Result<Shown, AllocError>
    ensures { IfOk result (IsTooMany (member_key_of large.now.member.now) large.now.count) }
{
    let member = large.member.copy()?;
    let count = large.count;
    Ok(Shown::TooManySites { member, count })
}

// The lines of the file's members behind so many bytes, or only how many bytes there are with them.
fn tell_lines(
    alloc: Global,
    table: &Table,
    file: u32,
    written: &[WrittenMember<'_, Span>],
    bounds: &[MemberBound],
    before: u64,
    keeps: bool,
) -> Result<Shown, AllocError>
    requires bound { (files : List (List Item))
        × AreEachBound table.now files (map written_of written.now) bounds.now }
    requires can { EachOf CanShow (map written_of written.now) }
    ensures { (files : List (List Item)) (items : List Item)
        → AreEachBound table.now files (map written_of written.now) bounds.now
        → slice_get files file ≡ Some items
        → IfOk result (IsTold table.now items before (keeps ≡ true)
        (in_file file (map written_of written.now))) }
{
    let mut tally = begin(alloc, before, keeps);
    match put_members(alloc, table, file, written, bounds, &mut tally) {
        Err(error) => {
            drop(tally);
            Err(error)
        }
        Ok(Some(large)) => {
            drop(tally);
            too_many_sites(&large)
        }
        Ok(None) => Ok(Shown::Lines {
            texts: tally.lines,
            len: tally.len,
        }),
    }
}

// Whether there are lines, of no more than so many bytes.
fn fits(shown: &Shown, most: u64) -> bool
    ensures { IsFalse result → (n : ℕ) → HasLen shown.now n → n ≤ most → ⊥ }
{
    match shown {
        Shown::TooManySites { .. } => false,
        Shown::Lines { len, .. } => *len <= most,
    }
}

/// The lines of the dependences in the file of the number, behind so many bytes, and of no more
/// than `most` bytes with these. `written` are a program's members, `bounds` what binding knows of
/// them, one each in the same order. Each member of the file gets its graph made, one after another
/// in text order, and once more where the lines are kept: all are counted before.
///
/// `TooManySites` exactly where a member has more than 1,000 sites, with the first such. Where 64
/// bits don't count the bytes the answer is want of memory.
pub fn dependence_lines(
    alloc: Global,
    table: &Table,
    file: u32,
    written: &[WrittenMember<'_, Span>],
    bounds: &[MemberBound],
    before: u64,
    most: u64,
) -> Result<Shown, AllocError>
    requires bound { (files : List (List Item))
        × AreEachBound table.now files (map written_of written.now) bounds.now }
    requires can { EachOf CanShow (map written_of written.now) }
    ensures { (files : List (List Item)) (items : List Item)
        → AreEachBound table.now files (map written_of written.now) bounds.now
        → slice_get files file ≡ Some items
        → IfOk result (IsShown table.now items before most
        (in_file file (map written_of written.now))) }
{
    let counted = tell_lines(alloc, table, file, written, bounds, before, false)?;
    if fits(&counted, most) {
        drop(counted);
        return tell_lines(alloc, table, file, written, bounds, before, true);
    }
    Ok(counted)
}
