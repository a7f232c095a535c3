//! What a drop frees.
use crate::deepest::{around, branches};
use crate::samples::{call, sum};
use crate::trees::{Numbered, boxed_stmt, put_stmt, unit_of, word};
use jr_ast::{Expr, Stmt, TypeKind, TypeRef, Unit};
use jr_paths::WithMarks;
use std::alloc::Global;
use std::cell::Cell;
use std::process::Abort;

// A mark that is counted as long as it lives.
struct Counted<'a>(&'a Cell<usize>);

impl<'a> Counted<'a> {
    fn new(live: &'a Cell<usize>) -> Counted<'a> {
        live.set(live.get().wrapping_add(1));
        Counted(live)
    }
}

impl Drop for Counted<'_> {
    fn drop(self) {
        let Counted(live) = self;
        live.set(live.get().wrapping_sub(1));
    }
}

// `while (true) m(x + 1); if (true) m(x + 1); if (true) m(x + 1); else m(x + 1);`
fn nest<A: Numbered>(rt: &impl Abort, alloc: Global) -> Vec<Stmt<A>> {
    let mut all = Vec::new(alloc);
    put_stmt(rt, &mut all, around(rt, alloc, b'w', call(rt, alloc)));
    put_stmt(rt, &mut all, around(rt, alloc, b't', call(rt, alloc)));
    let both = branches(call(rt, alloc), call(rt, alloc));
    put_stmt(rt, &mut all, boxed_stmt(rt, alloc, both));
    all
}

// `int x = 1;`
fn local<A: Numbered>(rt: &impl Abort, alloc: Global) -> Stmt<A> {
    let name = word(rt, alloc, 0, "x");
    let ty = TypeRef {
        mark: A::of(0),
        kind: TypeKind::Int,
    };
    Stmt::local(A::of(0), false, ty, name, Expr::number(A::of(0), 1))
}

// `int x = 1; m(x + 1); return x + 1; ;`, and those of `nested` in a block and synchronized.
fn each_form<A: Numbered>(rt: &impl Abort, alloc: Global) -> Vec<Stmt<A>> {
    let mut all = Vec::new(alloc);
    put_stmt(rt, &mut all, boxed_stmt(rt, alloc, local(rt, alloc)));
    put_stmt(rt, &mut all, call(rt, alloc));
    let value = Box::into_inner(sum(rt, alloc));
    let returned = Stmt::return_value(A::of(0), Some(value));
    put_stmt(rt, &mut all, boxed_stmt(rt, alloc, returned));
    put_stmt(rt, &mut all, boxed_stmt(rt, alloc, Stmt::empty(A::of(0))));
    let block = Stmt::block(A::of(0), nest(rt, alloc));
    put_stmt(rt, &mut all, boxed_stmt(rt, alloc, block));
    let sync = Stmt::sync(A::of(0), Expr::this(A::of(0)), nest(rt, alloc));
    put_stmt(rt, &mut all, boxed_stmt(rt, alloc, sync));
    all
}

// The marks of `unit_of` around `each_form`: `m(x + 1);` has seven, and the nodes of the rest are
// counted by hand too.
const MARKS: usize = 5 + 4 + 7 + 5 + 1 + 1 + 2 + 2 * (9 + 9 + 16);

// How many marks live before and after a copy with such marks is dropped.
fn count_freed<A: Numbered, B: Drop, F: Fn(&A) -> B + Drop>(
    rt: &impl Abort,
    alloc: Global,
    f: F,
    live: &Cell<usize>,
) -> (usize, usize)
    requires { F.IsAlwaysCallable f }
{
    let unit: Unit<A> = unit_of(rt, alloc, each_form(rt, alloc));
    let copy: Unit<B> = unit.with_marks(alloc, f).expect(rt, "memory");
    let held = live.get();
    drop(copy);
    (held, live.get())
}

// What is dropped frees all that it holds.
#[test]
fn a_drop_frees_each_mark(rt: HostRuntime) {
    let live = Cell::new(0usize);
    let counts = count_freed::<u32, _, _>(&rt, rt.alloc(), |_| Counted::new(&live), &live);
    assert!(rt; counts == (MARKS, 0));
}
