//! The graph of a member's sites, by the flags of its own locals.
ghost use Rattle.jr_ast.specs.View.{member_of};
ghost use Rattle.jr_cfg.specs.Graphs.{IsGraphOfMember, RunsFollowGraph};
ghost use Rattle.jr_cfg.specs.MemberRoutes.{FitsSites, HasKey};
ghost use Rattle.jr_member_graphs.specs.OwnFlags.{TellsNeverNull, own};

use crate::members::own_flags;
use jr_ast::Member;
use jr_cfg::{CfgFault, graph};
use jr_sites::SiteGraph;
use jr_table::{Facts, Table};
use jr_text::Mark;
use std::alloc::Global;

/// The graph of a member's sites, and of the edges between them (JLS 14, 15.7): which of two actions
/// of one activation control comes to first. A test for null is a site exactly where the value may
/// be null: where it isn't `this`, `new`, a string, a class literal, a local that is never assigned
/// and begins with such a value, or one of these in parentheses.
///
/// The member's parent begins at `base`, a written `super(..)` of it stands at `super_at` (bytes of
/// the file, as for `jr_bind: bind`). More than 1,000 sites are refused, with their count, before
/// any edge is made.
pub fn member_graph<A: Mark, F: Facts>(
    alloc: Global,
    table: &Table,
    member: &Member<A>,
    base: u32,
    super_at: u32,
    facts: &F,
) -> Result<SiteGraph, CfgFault>
    requires fits { FitsSites A.span_from A.fits_at base (member_of member.now) }
    requires key { HasKey (F.key facts.now) (member_of member.now) }
    ensures tests { TellsNeverNull A.span_from base (own A.span_from table.now (F.key facts.now)
        (F.decls facts.now) (F.types facts.now) base (member_of member.now))
        (member_of member.now) }
    ensures exact { IsGraphOfMember A.span_from super_at base (own A.span_from table.now
        (F.key facts.now) (F.decls facts.now) (F.types facts.now) base (member_of member.now))
        (member_of member.now) result }
    ensures cover { RunsFollowGraph A.span_from super_at base (own A.span_from table.now
        (F.key facts.now) (F.decls facts.now) (F.types facts.now) base (member_of member.now))
        (member_of member.now) result }
{
    let flags = own_flags(alloc, table, member, base, facts)?;
    graph(alloc, table, member, base, super_at, facts, &flags)
}
