//! Members, overriding and dispatch in one small program.
use crate::building::{build_beside, table_of};
use crate::keys::{class_key, ctor_key, method_key, name_of, ty};
use crate::rows::cut_at;
use jr_names::{field_text, method_text};
use jr_table::{Decl, LocalKey, MemberKey, Row, Table};
use std::alloc::Global;
use std::process::Abort;

/// The files of the program.
pub(crate) const PROGRAM: &'static str =
    "class A { int f; private int g; void m() {} private void p() {} void o(A a) {} }@\
     class B extends A { private int f; void m() {} void p() {} void o(B b) {} }@\
     class C extends B {}";

/// Calls with their arguments, and what is expected.
pub(crate) const ROWS: &'static str = "
~table field A f => A.f
~table field B f => B.f
~# `B.f` is private: it hides `A.f` and isn't inherited itself (JLS 8.3).
~table field C f => none
~table field A g => A.g
~table field B g => none
~table field D f => none
~table methods C m => B.m()\x20
~table methods C o => A.o(A) B.o(B)\x20
~table methods A p => A.p()\x20
~table methods C p => B.p()\x20
~table methods C f =>\x20
~table methods D m =>\x20
~table dispatch C A m => B.m()
~table dispatch A A m => A.m()
~# `A` is neither `B` nor below it.
~table dispatch A B m => none
~# A private method isn't overridden (JLS 8.4.8.1).
~table dispatch C A p => none
~table dispatch C B p => B.p()
~table dispatch Thread Thread run => Thread.run()
~table overrides B A m => yes
~table overrides A B m => no
~table overrides B B m => no
~table overrides B A p => no
~# Other parameter types overload, and don't override (JLS 8.4.9).
~table overrides_with B A o => no
~table below C A => yes
~table below C Object => yes
~table below A A => yes
~table below A C => no
~table below D D => no
~table assignable C A => yes
~table assignable A C => no
~table assignable null C => yes
~table assignable null null => yes
~table assignable int int => yes
~table assignable int boolean => no
~table assignable null int => no
";

fn text_of(rt: &impl Abort, alloc: Global, text: &str) -> String {
    String::from_str(alloc, text).expect(rt, "memory")
}

/// What a class has as its field of a name.
fn field(rt: &impl Abort, alloc: Global, table: &Table, class: &str, name: &str) -> String {
    let class = class_key(rt, alloc, class);
    let name = name_of(rt, alloc, name);
    match table.field_member(&class, &name) {
        None => text_of(rt, alloc, "none"),
        Some(key) => field_text(alloc, key).expect(rt, "memory"),
    }
}

/// What a call of a method without parameters runs.
fn run(rt: &impl Abort, alloc: Global, table: &Table, class: &str, of: &str, name: &str) -> String {
    let class = class_key(rt, alloc, class);
    let method = method_key(rt, alloc, of, name, "");
    match table.dispatch(&class, &method) {
        None => text_of(rt, alloc, "none"),
        Some(key) => method_text(alloc, key).expect(rt, "memory"),
    }
}

/// The member methods of a name, with a blank behind each.
fn methods(rt: &impl Abort, alloc: Global, table: &Table, class: &str, name: &str) -> String {
    let class = class_key(rt, alloc, class);
    let name = name_of(rt, alloc, name);
    let mut text = String::new(alloc);
    for key in &table
        .method_members(alloc, &class, &name)
        .expect(rt, "memory")
    {
        let method = method_text(alloc, key).expect(rt, "memory");
        text.push_str(method.as_str()).expect(rt, "memory");
        text.push_str(" ").expect(rt, "memory");
    }
    text
}

/// Whether one method overrides another of its name: without parameters, or each with its class as
/// its parameter.
fn overrides(
    rt: &impl Abort,
    alloc: Global,
    table: &Table,
    classes: (&str, &str),
    name: &str,
    params: (&str, &str),
) -> bool {
    let sub = method_key(rt, alloc, classes.0, name, params.0);
    let sup = method_key(rt, alloc, classes.1, name, params.1);
    table.overrides(&sub, &sup)
}

fn below(rt: &impl Abort, alloc: Global, table: &Table, sub: &str, sup: &str) -> bool {
    table.is_subclass(&class_key(rt, alloc, sub), &class_key(rt, alloc, sup))
}

fn assignable(rt: &impl Abort, alloc: Global, table: &Table, from: &str, to: &str) -> bool {
    table.is_assignable(&ty(rt, alloc, from), &ty(rt, alloc, to))
}

fn yes_or_no(rt: &impl Abort, alloc: Global, answer: bool) -> String {
    text_of(rt, alloc, if answer { "yes" } else { "no" })
}

/// What the table answers to a call and its arguments.
pub(crate) fn tell_rows(rt: &impl Abort, alloc: Global, table: &Table, asked: &str) -> String {
    let (call, rest) = cut_at(asked, " ");
    let (a, rest) = cut_at(rest, " ");
    let (b, c) = cut_at(rest, " ");
    match call {
        "field" => field(rt, alloc, table, a, b),
        "methods" => methods(rt, alloc, table, a, b),
        "dispatch" => run(rt, alloc, table, a, b, c),
        "overrides" => yes_or_no(rt, alloc, overrides(rt, alloc, table, (a, b), c, ("", ""))),
        "overrides_with" => yes_or_no(rt, alloc, overrides(rt, alloc, table, (a, b), c, (a, b))),
        "below" => yes_or_no(rt, alloc, below(rt, alloc, table, a, b)),
        _ => yes_or_no(rt, alloc, assignable(rt, alloc, table, a, b)),
    }
}

/// Whether a copy of the row is equal to it.
fn is_copied(rt: &impl Abort, alloc: Global, row: &Row) -> bool {
    let copy = Box::new(alloc, row.copy(alloc).expect(rt, "memory")).expect(rt, "memory");
    (copy.decl == row.decl)
        & (copy.modifiers.as_slice() == row.modifiers.as_slice())
        & (copy.ty == row.ty)
        & (copy.parent == row.parent)
        & (copy.has_init == row.has_init)
}

/// Whether a copy of the second parameter or local of `A.D.new()` is equal to it.
fn is_local_copied(rt: &impl Abort, alloc: Global) -> bool {
    let member = MemberKey::Ctor(ctor_key(rt, alloc, "A.D", ""));
    let local = Box::new(alloc, Decl::Local(LocalKey { member, number: 1 })).expect(rt, "memory");
    let copy = Box::new(alloc, local.copy().expect(rt, "memory")).expect(rt, "memory");
    *copy == *local
}

/// The prelude's 8 rows, the 12 that are written, and a constructor a class (JLS 8.8.9).
fn assert_copied(rt: &impl Abort, alloc: Global) {
    let table = table_of(rt, alloc, PROGRAM);
    assert!(rt; table.rows().len() == 23);
    for row in table.rows() {
        assert!(rt; is_copied(rt, alloc, row));
    }
    assert!(rt; is_local_copied(rt, alloc));
}

#[test]
fn copies_are_equal(rt: HostRuntime) {
    assert_copied(&rt, rt.alloc());
}

/// Asserts that the program's table has its rows, where the table of another's is known.
fn assert_built_beside(rt: &impl Abort, alloc: Global, known: &str) {
    let expected = table_of(rt, alloc, PROGRAM);
    let mut known = Some(table_of(rt, alloc, known));
    let table = build_beside(rt, alloc, PROGRAM, &mut known).expect(rt, "a program without faults");
    assert!(rt; table.has_rows(expected.rows()));
}

#[test]
fn known_tables_are_taken_by_their_rows(rt: HostRuntime) {
    let alloc = rt.alloc();
    assert_built_beside(&rt, alloc, PROGRAM);
    assert_built_beside(&rt, alloc, "class A { int f; }");
    let table = table_of(&rt, alloc, PROGRAM);
    let other = table_of(&rt, alloc, "class A { int f; }@class B extends A {}");
    assert!(rt; !table.has_rows(other.rows()));
}
