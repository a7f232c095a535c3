//! The pair of sites that may not change places, as the expression moves in front of its statement.
ghost use Rattle.std.specs.Prelude.{◌≡◌, IfOk, option_map};
ghost use Rattle.jr_text.specs.declared.spans.Span as spans;
ghost use Rattle.jr_bind.specs.Programs.{Program};
ghost use Rattle.jr_names.specs.SiteView.{pair_of};
ghost use Rattle.jr_extract_lists.specs.Targets.{IsTarget};
ghost use Rattle.jr_extract_lists.specs.Walked.{HasPlace, IsPlaceOf};
ghost use Rattle.jr_extract_local.specs.Moves.{AreInFront, IsLost};

use jr_extract_lists::{StatementPlace, Target};
use jr_local_crossings::extracts_lose;
use jr_local_footprints::own_flags_tell;
use jr_local_parts::{lost_pair, path_behind, path_to};
use jr_member_graphs::own_flags;
use jr_members::members_are_written;
use jr_names::DepPair;
use jr_new_bodies::next;
use jr_piece_sites::{footprint, footprint_of, sites_before};
use jr_sites::PlacedSite;
use jr_table::Table;
use jr_text::Span;
use std::alloc::{AllocError, Global};

/// The sites of the statement that are evaluated before the expression (JLS 15.7): the first ones
/// of its sites, as many as stand in front of the expression's. The only fault is want of memory.
fn sites_in_front(
    alloc: Global,
    table: &Table,
    of: &Target<'_>,
    at: &StatementPlace,
    never_null: &[bool],
) -> Result<Vec<PlacedSite>, AllocError>
    requires { HasPlace of.now at.now }
    ensures { (p : Program spans.Span) → (x : IsTarget p of.now) → p.rows ≡ table.now
        → (h : IsPlaceOf x at.now)
        → IfOk result (λ sites. AreInFront x h never_null.now sites.items) }
{
    let facts = of.body.bound;
    let step = at.element.step;
    let behind = next(step)?;
    let around = path_to(alloc, of.path, at.element.depth - 1)?;
    let outer = path_to(alloc, of.path, at.element.depth)?;
    let inner = path_behind(alloc, of.path, at.element.depth)?;
    let count = sites_before(
        alloc, table, of.member, 0, &outer, &inner, facts, never_null,
    )?;
    let sites = footprint_of(
        alloc, table, of.member, 0, &around, step, behind, facts, never_null,
    )?;
    let mut front = sites;
    front.truncate(count as usize);
    Ok(front)
}

/// The pair that is lost (refusal 18): a site that the statement evaluates before the expression,
/// and one of the expression, which may not come before it (JLS 17.4). None exactly where there is
/// no such pair. Places are those of the file's old text. The only fault is want of memory.
pub(crate) fn lost_dependence(
    alloc: Global,
    table: &Table,
    of: &Target<'_>,
    at: &StatementPlace,
) -> Result<Option<DepPair>, AllocError>
    requires { HasPlace of.now at.now }
    ensures { (p : Program spans.Span) → (x : IsTarget p of.now) → p.rows ≡ table.now
        → IsPlaceOf x at.now → IfOk result (λ o. IsLost x (option_map pair_of o)) }
{
    members_are_written::<Span>();
    own_flags_tell();
    extracts_lose();
    let facts = of.body.bound;
    let flags = own_flags(alloc, table, of.member, 0, facts)?;
    let never_null = flags.as_slice();
    let before = sites_in_front(alloc, table, of, at, never_null)?;
    let moved = footprint(alloc, table, of.member, 0, of.path, facts, never_null)?;
    lost_pair(alloc, of.request.file, of.body.from, before, moved)
}
