//! Dependences are listed, a first site after another.
ghost use Rattle.std.specs.Prelude.{◌≡◌, ℕ, List, ◌↔◌, ◌++◌, ◌<◌, ◌^◌, IfOk, OnOk, IsTrue};
ghost use Rattle.std.specs.Prelude.{Contains, AllPairs, length, map};
ghost use Rattle.jr_flow.specs.Edges.{EdgeOf};
ghost use Rattle.jr_flow.specs.Paths.{Path};
ghost use Rattle.jr_flow.specs.Pairs.{Tells};
ghost use Rattle.jr_flow.specs.Searched.{AreRowsOf};
ghost use Rattle.jr_dependences.specs.Depends.{DependsIn};
ghost use Rattle.jr_dependences.specs.Kinds.{told, told_one};
ghost use Rattle.jr_dependences.specs.Known.{KnowsPaths};
ghost use Rattle.jr_dependences.specs.Listed.{IsBefore, IsOn, Adds};
ghost use Rattle.jr_dependences.specs.Numbers.{SameNumber};

use crate::Dependence;
use crate::numbers::{NumberedSite, numbered};
use crate::pairs::{Kinds, kinds_between};
use crate::stops::flow_of;
use jr_flow::{EdgeRows, Graph, Reach, Reached, reachable, rows_of_edges};
use jr_sync::{DepKind, Site};
use std::alloc::{AllocError, Global};

/// Puts a dependence, if it holds.
fn push_kind(
    holds: bool,
    kind: DepKind,
    first: u32,
    second: u32,
    list: &mut Vec<Dependence>,
) -> Result<(), AllocError>
    ensures { OnOk result (list.new.items ≡ list.old.items ++ told_one holds kind first second) }
{
    if !holds {
        return Ok(());
    }
    list.push(Dependence {
        kind,
        first,
        second,
    })?;
    Ok(())
}

/// Puts the dependences of one site on another, in the order of kinds.
fn push_kinds(
    kinds: Kinds,
    first: u32,
    second: u32,
    list: &mut Vec<Dependence>,
) -> Result<(), AllocError>
    ensures { OnOk result (list.new.items ≡ list.old.items ++ told kinds first second) }
{
    push_kind(kinds.order, DepKind::Order, first, second, list)?;
    push_kind(kinds.field, DepKind::Field, first, second, list)?;
    push_kind(kinds.sync, DepKind::Sync, first, second, list)?;
    push_kind(kinds.flow, DepKind::Flow, first, second, list)?;
    push_kind(kinds.anti, DepKind::Anti, first, second, list)?;
    push_kind(kinds.output, DepKind::Output, first, second, list)
}

/// Puts the dependences on one site, from which these paths are known.
fn push_seconds(
    reach: &Reach,
    flow: &Option<Reached>,
    sites: &[NumberedSite],
    first: u32,
    list: &mut Vec<Dependence>,
) -> Result<(), AllocError>
    requires few { length sites.now < 2 ^ 32 }
    requires first { first < length sites.now }
    ensures { (edges : List (ℕ × ℕ)) → KnowsPaths SameNumber SameNumber sites.now edges first
        reach.now flow.now → OnOk result (Adds (IsOn first)
        (DependsIn SameNumber SameNumber sites.now edges) list.old.items list.new.items) }
{
    for second in 0..sites.len() {
        let kinds = kinds_between(reach, flow, sites, first, second as u32);
        push_kinds(kinds, first, second as u32, list)?;
    }
    Ok(())
}

/// Puts the dependences on one site.
fn push_row(
    alloc: Global,
    rows: &EdgeRows,
    reach: &Reach,
    sites: &[NumberedSite],
    first: u32,
    list: &mut Vec<Dependence>,
) -> Result<(), AllocError>
    requires few { length sites.now < 2 ^ 32 }
    requires first { first < length sites.now }
    ensures { (edges : List (ℕ × ℕ)) → Tells (Path (EdgeOf edges)) reach.now
        → AreRowsOf edges rows.now → OnOk result (Adds (IsOn first)
        (DependsIn SameNumber SameNumber sites.now edges) list.old.items list.new.items) }
{
    let flow = flow_of(alloc, rows, sites, first)?;
    push_seconds(reach, &flow, sites, first, list)
}

/// The dependences on all sites, one site after another.
fn dependences_between(
    alloc: Global,
    graph: &Graph,
    sites: &[NumberedSite],
) -> Result<Vec<Dependence>, AllocError>
    requires { length sites.now < 2 ^ 32 }
    ensures ordered { IfOk result (λ list. AllPairs IsBefore list.items) }
    ensures exact { IfOk result (λ list. (d : Dependence) → (Contains list.items d
        ↔ DependsIn SameNumber SameNumber sites.now graph.now.edges.items d)) }
{
    let reach = reachable(alloc, graph)?;
    let rows = rows_of_edges(alloc, graph)?;
    let mut list = Vec::new(alloc);
    for first in 0..sites.len() {
        push_row(alloc, &rows, &reach, sites, first as u32, &mut list)?;
    }
    Ok(list)
}

/// All dependences between the sites of a graph, each once, in order: by the first site, the second
/// and the kind. The sites are the graph's nodes.
pub fn dependences_of<K: Eq, L: Eq>(
    alloc: Global,
    graph: &Graph,
    sites: &[&Site<K, L>],
) -> Result<Vec<Dependence>, AllocError>
    requires { length sites.now < 2 ^ 32 }
    ensures ordered { IfOk result (λ list. AllPairs IsBefore list.items) }
    ensures exact { IfOk result (λ list. (d : Dependence) → (Contains list.items d
        ↔ DependsIn (λ x y. IsTrue (K.eq x y)) (λ x y. IsTrue (L.eq x y))
        (map (λ s. s.now) sites.now) graph.now.edges.items d)) }
{
    let row = numbered(alloc, sites)?;
    dependences_between(alloc, graph, row.as_slice())
}
