//! Trees as deep as any text gives, on the stack that a program has.
use crate::paths::{copy_unit, stmt_mark, write_stmt};
use crate::trees::{Numbered, body_of, boxed_stmt, unit_of};
use jr_ast::{Expr, Path, Stmt};
use jr_paths::PathReads;
use std::alloc::Global;
use std::process::Abort;

// How deep a text within the limits nests: in each of its 100 brackets there are at most 75 of
// `if (x) ..`, whose four tokens count up to 300, and all of it has 500 words `else`.
const DEEPEST: usize = 8_000;

// `if (true) yes else no`
pub(crate) fn branches<A: Numbered>(yes: Box<Stmt<A>>, no: Box<Stmt<A>>) -> Stmt<A> {
    Stmt::if_else(A::of(5), Expr::truth(A::of(6), true), yes, no)
}

// A statement around another: `w` is `while`, `t` is `if` without `else`, `y` is `if` before
// `else`, `e` is `else`, and all else a block.
pub(crate) fn around<A: Numbered>(
    rt: &impl Abort,
    alloc: Global,
    level: u8,
    inner: Box<Stmt<A>>,
) -> Box<Stmt<A>> {
    let outer = match level {
        b'w' => Stmt::while_loop(A::of(5), Expr::truth(A::of(6), true), inner),
        b't' => Stmt::if_then(A::of(5), Expr::truth(A::of(6), true), inner),
        b'y' => branches(inner, boxed_stmt(rt, alloc, Stmt::empty(A::of(8)))),
        b'e' => branches(boxed_stmt(rt, alloc, Stmt::empty(A::of(8))), inner),
        _ => Stmt::block(A::of(5), body_of(rt, alloc, inner)),
    };
    boxed_stmt(rt, alloc, outer)
}

// Which child of the outer statement the inner one is.
fn step_into(level: u8) -> u32 {
    match level {
        b'b' => 0,
        b'e' => 2,
        _ => 1,
    }
}

// The level of this number, counted from outside, where these levels follow each other in turn.
fn level_at(turn: &[u8], number: usize) -> u8 {
    match turn.get(number % turn.len().max(1)) {
        None => b'w',
        Some(level) => *level,
    }
}

// A statement that nests as deep as any text does, by these levels in turn.
fn deep<A: Numbered>(rt: &impl Abort, alloc: Global, turn: &[u8]) -> Box<Stmt<A>> {
    let mut stmt = boxed_stmt(rt, alloc, Stmt::empty(A::of(7)));
    for i in 0..DEEPEST {
        stmt = around(rt, alloc, level_at(turn, DEEPEST - 1 - i), stmt);
    }
    stmt
}

// To the statement inside all levels.
fn path_down(rt: &impl Abort, alloc: Global, turn: &[u8]) -> Path {
    let mut steps = [0, 1, 1].to_vec(alloc).expect(rt, "memory");
    for i in 0..DEEPEST {
        steps
            .push(step_into(level_at(turn, i)))
            .expect(rt, "memory");
    }
    Path { steps }
}

// A unit of such a statement is walked, copied and changed. It is dropped here too.
fn assert_fits<A: Numbered>(rt: &impl Abort, alloc: Global, turn: &str) {
    let path = path_down(rt, alloc, turn.as_bytes());
    let stmt: Box<Stmt<A>> = deep(rt, alloc, turn.as_bytes());
    let unit = unit_of(rt, alloc, body_of(rt, alloc, stmt));
    let mut copy = copy_unit(rt, alloc, &unit);
    let copied = stmt_mark(copy.stmt_at(&path));
    let is_lent = write_stmt(&mut copy, &path, 90);
    let changed = stmt_mark(copy.stmt_at(&path));
    assert!(rt; (copied == Some(71)) & is_lent & (changed == Some(90)));
}

// As deep a tree as any text gives is walked, copied, changed and dropped on the stack that a
// program has, whatever it nests.
#[test]
fn the_deepest_trees_fit_the_stack(rt: HostRuntime) {
    for turn in "w t e wte bywwtetwwtwtewtt".split(' ') {
        assert_fits::<u32>(&rt, rt.alloc(), turn);
    }
}
