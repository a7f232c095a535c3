//! What is asked of a part of a method, to which a path leads.
ghost use Rattle.std.specs.Prelude.{◌≡◌, ◌≤◌, ◌++◌, IsTrue, IfSome, length};
ghost use Rattle.jr_ast.specs.Nodes as nodes;
ghost use Rattle.jr_ast.specs.StatementTree as statement;
ghost use Rattle.jr_ast.specs.View.{member_of, stmt_of, stmts_of};
ghost use Rattle.jr_piece_sites.specs.Leads.{Leads, LeadsToParts};
ghost use Rattle.jr_piece_sites.specs.Pieces.{IsOwner};

use crate::graphs::tell_sites;
use crate::methods::Method;
use crate::rows::{cut_at, number};
use jr_ast::{Member, Path, Stmt, StmtKind};
use jr_effect::is_plain;
use jr_member_graphs::{never_null, own_flags};
use jr_paths::MemberPathReads;
use jr_piece_sites::{footprint, footprint_of, site_range, sites_before};
use jr_sites::PlacedSite;
use jr_text::Span;
use std::alloc::Global;
use std::process::Abort;

/// A path: numbers that dots part, or `-` for the empty one.
fn path_of(rt: &impl Abort, alloc: Global, text: &str) -> Path {
    let mut steps = Vec::new(alloc);
    if text != "-" {
        for step in text.split('.') {
            steps.push(number(rt, step)).expect(rt, "memory");
        }
    }
    Path { steps }
}

/// One path behind another.
fn both(rt: &impl Abort, alloc: Global, first: &Path, second: &Path) -> Path
    ensures { result.steps.items ≡ first.now.steps.items ++ second.now.steps.items }
{
    let mut steps = Vec::new(alloc);
    steps
        .extend_from_slice(first.steps.as_slice())
        .expect(rt, "memory");
    steps
        .extend_from_slice(second.steps.as_slice())
        .expect(rt, "memory");
    Path { steps }
}

/// Whether the path leads to an expression or a statement.
fn leads(of: &Member<Span>, path: &Path) -> bool
    requires { IsOwner (member_of of.now) }
    ensures { IsTrue result → Leads (member_of of.now) path.now.steps.items }
{
    match of.expr_at(path) {
        Some(_) => true,
        None => of.stmt_at(path).is_some(),
    }
}

/// The statements of a block, if it is one.
fn block_of(of: &Stmt<Span>) -> Option<&[Stmt<Span>]>
    ensures { IfSome result (λ body. stmt_of of.now
        ≡ statement.block of.now.mark (stmts_of body.now)) }
{
    match &of.kind {
        StmtKind::Block(body) => Some(body.as_slice()),
        _ => None,
    }
}

fn are_in(from: u32, to: u32, count: usize) -> bool
    ensures { IsTrue result → (from ≤ to) × (to ≤ count) }
{
    from <= to && to as usize <= count
}

/// Whether it is a block that has statements of these numbers.
fn holds(of: &Stmt<Span>, from: u32, to: u32) -> bool
    ensures { IsTrue result → (body : statement.Stmts Span)
        × (stmt_of of.now ≡ statement.block of.now.mark body)
        × (from ≤ to) × (to ≤ length (nodes.stmts body)) }
{
    match block_of(of) {
        None => false,
        Some(body) => are_in(from, to, body.len()),
    }
}

/// Whether the path leads to a block that has statements of these numbers.
fn has_parts(of: &Member<Span>, list: &Path, from: u32, to: u32) -> bool
    requires { IsOwner (member_of of.now) }
    ensures { IsTrue result → LeadsToParts (member_of of.now) list.now.steps.items from to }
{
    match of.stmt_at(list) {
        None => false,
        Some(stmt) => holds(stmt, from, to),
    }
}

/// The footprint of an expression.
fn footprint_at(rt: &impl Abort, alloc: Global, method: &Method<'_>, part: &str) -> Vec<PlacedSite>
    requires owner { IsOwner (member_of method.now.of.now) }
{
    let path = path_of(rt, alloc, part);
    let base = method.base;
    let (table, bound) = (method.table, method.bound);
    match method.of.expr_at(&path) {
        None => Vec::new(alloc),
        Some(_) => {
            let sites = footprint(alloc, table, method.of, base, &path, bound, method.flags);
            sites.expect(rt, "memory")
        }
    }
}

/// Of the statements of a block, whose path and numbers spaces part.
fn tell_parts(rt: &impl Abort, alloc: Global, method: &Method<'_>, part: &str) -> String
    requires owner { IsOwner (member_of method.now.of.now) }
{
    let (list, numbers) = cut_at(part, " ");
    let (from, to) = cut_at(numbers, " ");
    let list = path_of(rt, alloc, list);
    let (from, to) = (number(rt, from), number(rt, to));
    if has_parts(method.of, &list, from, to) {
        let (table, bound, flags) = (method.table, method.bound, method.flags);
        let base = method.base;
        let sites = footprint_of(alloc, table, method.of, base, &list, from, to, bound, flags);
        return tell_sites(rt, alloc, sites.expect(rt, "memory").as_slice());
    }
    String::new(alloc)
}

/// How many sites of one part stand in front of another, whose path goes on from there.
fn tell_before(rt: &impl Abort, alloc: Global, method: &Method<'_>, part: &str) -> String
    requires owner { IsOwner (member_of method.now.of.now) }
{
    let (outer, path) = cut_at(part, " ");
    let outer = path_of(rt, alloc, outer);
    let path = path_of(rt, alloc, path);
    let whole = both(rt, alloc, &outer, &path);
    if leads(method.of, &whole) {
        let (table, bound, flags) = (method.table, method.bound, method.flags);
        let base = method.base;
        let count = sites_before(alloc, table, method.of, base, &outer, &path, bound, flags);
        let count = count.expect(rt, "memory");
        return format!(in alloc; "{count}").expect(rt, "memory");
    }
    String::new(alloc)
}

fn tell_range(rt: &impl Abort, alloc: Global, method: &Method<'_>, part: &str) -> String
    requires owner { IsOwner (member_of method.now.of.now) }
{
    let path = path_of(rt, alloc, part);
    if leads(method.of, &path) {
        let (table, bound, flags) = (method.table, method.bound, method.flags);
        let range = site_range(alloc, table, method.of, method.base, &path, bound, flags);
        let range = range.expect(rt, "memory");
        return format!(in alloc; "{}-{}", range.from, range.to).expect(rt, "memory");
    }
    String::new(alloc)
}

fn tell_never_null(rt: &impl Abort, alloc: Global, method: &Method<'_>, part: &str) -> String {
    let path = path_of(rt, alloc, part);
    let Some(of) = method.of.expr_at(&path) else {
        return String::new(alloc);
    };
    let (table, bound) = (method.table, method.bound);
    let flags = own_flags(alloc, table, method.of, method.base, bound).expect(rt, "memory");
    let never = never_null(
        table,
        method.of,
        method.base,
        bound,
        flags.as_slice(),
        0,
        of,
    );
    format!(in alloc; "{never}").expect(rt, "memory")
}

/// What is asked of a part.
pub(crate) fn tell_part(
    rt: &impl Abort,
    alloc: Global,
    method: &Method<'_>,
    kind: &str,
    part: &str,
) -> String
    requires owner { IsOwner (member_of method.now.of.now) }
{
    match kind {
        "footprint" => { tell_sites(rt, alloc, footprint_at(rt, alloc, method, part).as_slice()) }
        "plain" => {
            let plain = is_plain(footprint_at(rt, alloc, method, part).as_slice());
            format!(in alloc; "{plain}").expect(rt, "memory")
        }
        "statements" => tell_parts(rt, alloc, method, part),
        "before" => tell_before(rt, alloc, method, part),
        "range" => tell_range(rt, alloc, method, part),
        _ => tell_never_null(rt, alloc, method, part),
    }
}
