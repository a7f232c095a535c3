//! What paths lead to in trees and in their copies, and what is written through them.
use crate::rows::{assert_same, cut_at, number};
use crate::samples::{method, unit};
use crate::trees::{Numbered, unit_of};
use jr_ast::{Expr, Member, Path, Stmt, Unit};
use jr_paths::{
    ExprPathWrites, MemberPathReads, MemberPathWrites, Node, PathReads, StmtPathWrites, WithMarks,
};
use std::alloc::Global;
use std::process::Abort;

fn mark_of<A: Numbered>(node: &Node<'_, A>) -> u32 {
    match node {
        Node::Unit(unit) => unit.mark.number(),
        Node::Class(class) => class.mark.number(),
        Node::Modifier(modifier) => modifier.mark.number(),
        Node::Word(word) => word.mark.number(),
        Node::Type(ty) => ty.mark.number(),
        Node::Param(param) => param.mark.number(),
        Node::Member(member) => member.mark.number(),
        Node::Stmt(stmt) => stmt.mark.number(),
        Node::Expr(expr) => expr.mark.number(),
    }
}

// The marks of what a path leads to: of the node, and of it as an expression, a statement and a
// member.
type Marks = [Option<u32>; 4];

fn node_mark<A: Numbered>(node: Option<Node<'_, A>>) -> Option<u32> {
    match node {
        None => None,
        Some(node) => Some(mark_of(&node)),
    }
}

fn expr_mark<A: Numbered>(expr: Option<&Expr<A>>) -> Option<u32> {
    match expr {
        None => None,
        Some(expr) => Some(expr.mark.number()),
    }
}

pub(crate) fn stmt_mark<A: Numbered>(stmt: Option<&Stmt<A>>) -> Option<u32> {
    match stmt {
        None => None,
        Some(stmt) => Some(stmt.mark.number()),
    }
}

fn member_mark<A: Numbered>(member: Option<&Member<A>>) -> Option<u32> {
    match member {
        None => None,
        Some(member) => Some(member.mark.number()),
    }
}

fn from_unit<A: Numbered>(unit: &Unit<A>, path: &Path) -> Marks {
    [
        node_mark(Node::Unit(unit).at(path)),
        expr_mark(unit.expr_at(path)),
        stmt_mark(unit.stmt_at(path)),
        member_mark(unit.member_at(path)),
    ]
}

fn from_member<A: Numbered>(member: &Member<A>, path: &Path) -> Marks {
    [
        node_mark(Node::Member(member).at(path)),
        expr_mark(member.expr_at(path)),
        stmt_mark(member.stmt_at(path)),
        None,
    ]
}

// The path whose steps single spaces part.
fn path_in(rt: &impl Abort, alloc: Global, text: &str) -> Path {
    let mut steps = Vec::new(alloc);
    for step in text.split(' ') {
        if !step.is_empty() {
            steps.push(number(rt, step)).expect(rt, "memory");
        }
    }
    Path { steps }
}

fn assert_marks(rt: &impl Abort, alloc: Global, marks: Marks, expected: &str) {
    let [node, expr, stmt, member] = marks;
    let told = format!(in alloc; "{node:?} {expr:?} {stmt:?} {member:?}").expect(rt, "memory");
    assert_same(rt, told.as_str(), expected);
}

// Asserts that each path leads to what its row says, and that there are so many rows.
fn assert_leads<A: Numbered>(
    rt: &impl Abort,
    alloc: Global,
    unit: &Unit<A>,
    rows: &str,
    count: u32,
) {
    let mut seen = 0u32;
    for row in rows.split('~') {
        if let Some((steps, expected)) = row.split_once(" => ") {
            let path = path_in(rt, alloc, steps);
            assert_marks(rt, alloc, from_unit(unit, &path), expected.trim_end());
            seen = seen.wrapping_add(1);
        }
    }
    assert!(rt; seen == count);
}

// Each kind of node is reached by a path, and what lies past a tree's edge is not.
const PATHS: &'static str = "
~ => Some(1) None None None
~0 => Some(2) None None None
~1 => Some(10) None None None
~1 0 => Some(11) None None None
~1 1 0 => Some(13) None None None
~1 2 => Some(20) None None Some(20)
~1 2 0 => Some(21) None None None
~1 2 2 0 => Some(24) None None None
~1 2 3 => Some(27) None Some(27) None
~1 2 3 0 1 => Some(30) Some(30) None None
~1 2 3 0 1 1 => Some(33) Some(33) None None
~2 => None None None None
~1 2 4 => None None None None
~1 2 3 0 1 1 0 => None None None None
";

// The tree with other marks.
pub(crate) fn copy_unit<A: Numbered>(rt: &impl Abort, alloc: Global, unit: &Unit<A>) -> Unit<A> {
    unit.with_marks(alloc, |mark| A::of(mark.number() ^ 64))
        .expect(rt, "memory")
}

const MARKED: &'static str = "
~1 1 0 => Some(77) None None None
~1 2 3 0 1 1 => Some(97) Some(97) None None
";

fn assert_paths<A: Numbered>(rt: &impl Abort, alloc: Global) {
    let unit: Unit<A> = unit(rt, alloc);
    assert_leads(rt, alloc, &unit, PATHS, 14);
    let copy = copy_unit(rt, alloc, &unit);
    assert_leads(rt, alloc, &copy, MARKED, 2);
}

fn assert_from_member<A: Numbered>(
    rt: &impl Abort,
    alloc: Global,
    member: &Member<A>,
    steps: &str,
    expected: &str,
) {
    let path = path_in(rt, alloc, steps);
    assert_marks(rt, alloc, from_member(member, &path), expected);
}

// A member is where its own paths begin.
fn assert_member<A: Numbered>(rt: &impl Abort, alloc: Global) {
    let member: Box<Member<A>> = Box::new(alloc, method(rt, alloc)).expect(rt, "memory");
    assert_from_member(rt, alloc, &member, "3", "Some(27) None Some(27) None");
    assert_from_member(rt, alloc, &member, "3 0", "Some(28) Some(28) None None");
    assert_from_member(rt, alloc, &member, "3 0 1", "Some(30) Some(30) None None");
}

// Of more statements than sixteen bits count, the last one is copied and found.
const LAST: &'static str = "
~0 1 65537 => Some(71) None Some(71) None
~0 1 65538 => None None None None
";

fn assert_long_row<A: Numbered>(rt: &impl Abort, alloc: Global) {
    let mut body: Vec<Stmt<A>> = Vec::new(alloc);
    for _ in 0..65_537 {
        body.push(Stmt::empty(A::of(7))).expect(rt, "memory");
    }
    let unit = unit_of(rt, alloc, body);
    let copy = copy_unit(rt, alloc, &unit);
    assert_leads(rt, alloc, &copy, LAST, 2);
}

fn write_expr<A: Numbered>(unit: &mut Unit<A>, path: &Path, mark: u32) -> bool {
    match unit.expr_at_mut(path) {
        None => false,
        Some(expr) => {
            expr.mark = A::of(mark);
            true
        }
    }
}

pub(crate) fn write_stmt<A: Numbered>(unit: &mut Unit<A>, path: &Path, mark: u32) -> bool {
    match unit.stmt_at_mut(path) {
        None => false,
        Some(stmt) => {
            stmt.mark = A::of(mark);
            true
        }
    }
}

fn write_member<A: Numbered>(unit: &mut Unit<A>, path: &Path, mark: u32) -> bool {
    match unit.member_at_mut(path) {
        None => false,
        Some(member) => {
            member.mark = A::of(mark);
            true
        }
    }
}

// A mark and a path, and as what the node there can be changed: as an expression, a statement, a
// member. Its mark is that one then.
const WRITES: &'static str = "
~90 1 2 3 0 1 0 => true false false
~91 1 2 3 => false true false
~92 1 2 => false false true
~93 1 2 3 0 => true false false
~94 1 2 3 0 0 => false false false
";

// Makes each of these writes, and asserts that it is lent as its row says.
fn assert_lent<A: Numbered>(
    rt: &impl Abort,
    alloc: Global,
    unit: &mut Unit<A>,
    row: &str,
    expected: &str,
) {
    let (mark, steps) = cut_at(row, " ");
    let mark = number(rt, mark);
    let path = path_in(rt, alloc, steps);
    let expr = write_expr(unit, &path, mark);
    let stmt = write_stmt(unit, &path, mark);
    let member = write_member(unit, &path, mark);
    let told = format!(in alloc; "{expr} {stmt} {member}").expect(rt, "memory");
    assert_same(rt, told.as_str(), expected);
}

fn write_all<A: Numbered>(
    rt: &impl Abort,
    alloc: Global,
    unit: &mut Unit<A>,
    rows: &str,
    count: u32,
) {
    let mut seen = 0u32;
    for row in rows.split('~') {
        if let Some((asked, expected)) = row.split_once(" => ") {
            assert_lent(rt, alloc, unit, asked, expected.trim_end());
            seen = seen.wrapping_add(1);
        }
    }
    assert!(rt; seen == count);
}

// A write through a path is seen at its end and not beside it. Where no node of the kind stands,
// nothing is lent.
const WRITTEN: &'static str = "
~1 => Some(10) None None None
~1 2 => Some(92) None None Some(92)
~1 2 3 => Some(91) None Some(91) None
~1 2 3 0 => Some(93) Some(93) None None
~1 2 3 0 0 => Some(29) None None None
~1 2 3 0 1 => Some(30) Some(30) None None
~1 2 3 0 1 0 => Some(90) Some(90) None None
~1 2 3 0 1 1 => Some(33) Some(33) None None
";

fn assert_writes<A: Numbered>(rt: &impl Abort, alloc: Global) {
    let mut unit: Unit<A> = unit(rt, alloc);
    write_all(rt, alloc, &mut unit, WRITES, 5);
    assert_leads(rt, alloc, &unit, WRITTEN, 8);
}

#[test]
fn paths_lead_to_nodes(rt: HostRuntime) {
    assert_paths::<u32>(&rt, rt.alloc());
    assert_member::<u32>(&rt, rt.alloc());
    assert_long_row::<u32>(&rt, rt.alloc());
    assert_writes::<u32>(&rt, rt.alloc());
}
