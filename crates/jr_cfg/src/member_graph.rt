//! The graph of a member's sites.
ghost use Rattle.std.specs.Prelude.{◌≡◌, ◌↔◌, ◌<◌, ◌≤◌, ◌∷◌, [], ℕ, IfOk, length, map};
ghost use Rattle.jr_ast.specs.View.{member_of};
ghost use Rattle.jr_flow.specs.Edges.{EdgeOf};
ghost use Rattle.jr_code.specs.RunKeys.{RunKeys};
ghost use Rattle.jr_cover.specs.Sites as sites;
ghost use Rattle.jr_cover.specs.Ways.{Edge, Way};
ghost use Rattle.jr_table.specs.Decls as decls;
ghost use Rattle.jr_sites.specs.SiteView.{placed_of};
ghost use Rattle.jr_cfg.specs.Graphs.{HasSteps, IsAnswer, IsGraphOfMember, RunsFollowGraph};
ghost use Rattle.jr_cfg.specs.MemberRoutes.{FitsSites, HasKey, known};
ghost use Rattle.jr_cfg.specs.Placed.{placed};
ghost use Rattle.jr_expr_sites.specs.StepView.{given, step_of, steps_in};
ghost use Rattle.jr_expr_sites.specs.Steps as pure;

use crate::faults::CfgFault;
use crate::members::member as put_member;
use crate::placing::placed_sites;
use jr_ast::Member;
use jr_expr_sites::{Here, Step};
use jr_flow::Graph;
use jr_sites::SiteGraph;
use jr_table::{Facts, Table};
use jr_text::Mark;
use jr_way_graph::Shape;
use std::alloc::{AllocError, Global};

/// A graph has at most so many sites.
const MOST_SITES: u32 = 1000;

/// The shape of a step.
fn shape_of(step: &Step<'_>) -> Shape
    ensures { (key : decls.MemberKey) → result ≡ pure.shape_of (step_of key step.now) }
{
    match step {
        Step::Pass => Shape::Pass,
        Step::Site(_) => Shape::Site,
        Step::Opens(_) => Shape::Opens,
        Step::Row => Shape::Row,
        Step::Fork => Shape::Fork,
        Step::Leave => Shape::Leave,
        Step::Turns => Shape::Turns,
        Step::Closes(_) => Shape::Closes,
    }
}

/// The shapes of steps.
fn shapes(alloc: Global, steps: &[Step<'_>]) -> Result<Vec<Shape>, AllocError>
    ensures { (key : decls.MemberKey)
        → IfOk result (λ v. v.items ≡ map pure.shape_of (steps_in key steps.now)) }
{
    let mut list = Vec::new(alloc);
    for step in steps {
        list.push(shape_of(step))?;
    }
    Ok(list)
}

/// How many sites a step has.
fn sites_at(step: &Step<'_>) -> u32
    ensures is { (key : decls.MemberKey)
        → result ≡ length (pure.sites_in (step_of key step.now ∷ [])) }
    ensures few { result ≤ 1 }
{
    match step {
        Step::Site(_) => 1,
        Step::Opens(_) => 1,
        Step::Closes(_) => 1,
        Step::Pass => 0,
        Step::Row => 0,
        Step::Fork => 0,
        Step::Leave => 0,
        Step::Turns => 0,
    }
}

/// How many sites are among steps.
fn count_sites(steps: &[Step<'_>]) -> u32
    requires { length steps.now < 4294967295 }
    ensures { (key : decls.MemberKey)
        → result ≡ length (pure.sites_in (steps_in key steps.now)) }
{
    let mut count = 0;
    for step in steps {
        count += sites_at(step);
    }
    count
}

/// The same. More steps than numbers don't fit any memory.
fn site_count(steps: &[Step<'_>]) -> Result<u32, AllocError>
    ensures count { (key : decls.MemberKey)
        → IfOk result (λ n. n ≡ length (pure.sites_in (steps_in key steps.now))) }
    ensures few { IfOk result (λ n. length steps.now < 4294967295) }
{
    if steps.len() >= u32::MAX as usize {
        return Err(AllocError);
    }
    Ok(count_sites(steps))
}

/// The sites and edges of steps that are those of a way.
fn sites_and_edges<F: Facts>(
    alloc: Global,
    here: &Here<'_, F>,
    steps: &[Step<'_>],
) -> Result<SiteGraph, AllocError>
    requires few { length steps.now < 4294967295 }
    requires way { HasSteps (given F.decls F.types here.now) steps.now }
    ensures sites { IfOk result (λ of. map placed_of of.sites.items
        ≡ map (placed (given F.decls F.types here.now))
        (pure.sites_in (steps_in (given F.decls F.types here.now).member steps.now))) }
    ensures edges { (w : Way (sites.Site RunKeys))
        → steps_in (given F.decls F.types here.now).member steps.now ≡ pure.steps_of w
        → IfOk result (λ of. (i j : ℕ) → EdgeOf of.graph.edges.items i j ↔ Edge 0 w i j) }
{
    let shapes = shapes(alloc, steps)?;
    let made = jr_way_graph::graph::<u32>(alloc, &shapes)?;
    let sites = placed_sites(alloc, here, steps)?;
    let graph = Graph {
        size: made.count,
        edges: made.edges,
    };
    Ok(SiteGraph { sites, graph })
}

/// The graph of steps that are those of a way. Its sites are counted before any edge is made.
fn graph_of_steps<F: Facts>(
    alloc: Global,
    here: &Here<'_, F>,
    steps: &[Step<'_>],
) -> Result<SiteGraph, CfgFault>
    requires way { HasSteps (given F.decls F.types here.now) steps.now }
    ensures { (w : Way (sites.Site RunKeys))
        → steps_in (given F.decls F.types here.now).member steps.now ≡ pure.steps_of w
        → IsAnswer (given F.decls F.types here.now) w result }
{
    let count = site_count(steps)?;
    if count > MOST_SITES {
        return Err(CfgFault::TooManySites { count });
    }
    let graph = sites_and_edges(alloc, here, steps)?;
    Ok(graph)
}

/// The sites of a member, and the edges between them (JLS 14, 15.7): which of two actions of one
/// activation control comes to first.
///
/// The member's parent begins at `base`, a written `super(..)` of it stands at `super_at` (bytes of
/// the file, as for `jr_bind: bind`), and `never_null` tells by their numbers which of its locals
/// are never null. More than 1,000 sites are refused, with their count, before any edge is made.
pub fn graph<A: Mark, F: Facts>(
    alloc: Global,
    table: &Table,
    member: &Member<A>,
    base: u32,
    super_at: u32,
    facts: &F,
    never_null: &[bool],
) -> Result<SiteGraph, CfgFault>
    requires fits { FitsSites A.span_from A.fits_at base (member_of member.now) }
    requires key { HasKey (F.key facts.now) (member_of member.now) }
    ensures exact { IsGraphOfMember A.span_from super_at base
        (known A.span_from table.now (F.key facts.now) (F.decls facts.now) (F.types facts.now)
        never_null.now base (member_of member.now)) (member_of member.now) result }
    ensures cover { RunsFollowGraph A.span_from super_at base
        (known A.span_from table.now (F.key facts.now) (F.decls facts.now) (F.types facts.now)
        never_null.now base (member_of member.now)) (member_of member.now) result }
{
    let here = Here {
        table,
        facts,
        member: facts.member(),
        start: member.mark.span(base).from,
        never_null,
    };
    let mut steps = Vec::new(alloc);
    put_member(alloc, &here, base, super_at, member, &mut steps)?;
    graph_of_steps(alloc, &here, &steps)
}
