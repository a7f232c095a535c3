//! What names find in one small program.
use crate::keys::{class_key, name_of, tys};
use crate::rows::cut_at;
use crate::scopes::scope;
use jr_ast::Name;
use jr_lookup::{
    Scope, ctor_of, field_of, member_type, method_named, method_of, type_named, variable,
};
use jr_names::decl_text;
use jr_table::{ClassKey, Decl, Found, Table, Ty};
use std::alloc::{AllocError, Global};
use std::process::Abort;

pub(crate) const PROGRAM: &'static str = "
class A {
    int f; static int sf; private int p;
    void m() {} private void q() {}
    static class T {}
}
class O {
    static int x; int y; int f; private static int s;
    void m(int a) {} void n() {} static void g() {}
    static class K {}
    private static class H { private int h; private H(int i) {} }
    static class C extends A { int w; }
}
class D extends O {}
class Q extends A {}
class M {
    void b(A a) {} void b(Q q) {}
    void c(A a, Q q) {} void c(Q q, A a) {} void c(A a, A b) {}
    void d(int i) {}
    private void e(Q q) {} void e(A a) {}
    private void h(int i) {}
}
";

/// A call, the place's class and whether it is in a static context, the class that is asked, the
/// name and the arguments' types, and what is found. `-` is nothing.
pub(crate) const ROWS: &'static str = "
~# Simple names as variables, and what they find.
~# The last local of a name, before any field (JLS 6.4).
~find variable O.C - - i => O.C#0
~find variable O.C - - k => O.C#2
~# C inherits f, so the f of O isn't looked at (JLS 6.4.1).
~find variable O.C - - f => A.f
~find variable O.C - - x => O.x
~find variable O.C - - s => O.s
~# An instance field of the class around (JLS 8.1.3).
~find variable O.C - - y => from static: O.y
~find variable O.C static - w => from static: O.C.w
~find variable O.C static - sf => A.sf
~# A private field isn't inherited (JLS 8.2).
~find variable O.C - - p => nothing
~find variable D - - s => nothing
~find variable D - - y => O.y
~# A class isn't a variable.
~find variable O - - K => nothing
~# Names of types, and what they find.
~find type_named O.C - - T => A.T
~find type_named O.C - - K => O.K
~find type_named O.C - - A => A
~find type_named O.C - - String => String
~find type_named D - - K => O.K
~find type_named O - - H => O.H
~find type_named D - - H => nothing
~find type_named A - - K => nothing
~# Through a subclass (JLS 8.5).
~find member_type A - D K => O.K
~find member_type A - O H => not accessible: O.H
~find member_type O.C - O H => O.H
~find member_type D - D H => nothing
~# Fields of a class, and what is found.
~find field_of Q - O.C f => A.f
~# Private, from another top-level class and from the same (JLS 6.6.1).
~find field_of A - O s => not accessible: O.s
~find field_of O.C - O s => O.s
~find field_of O - O.H h => O.H.h
~find field_of A - Q p => nothing
~# Calls without a target, and what they find.
~find method_named O.C - - m => A.m()
~# C has a method m, so the m of O isn't looked at (JLS 15.12.1).
~find method_named O.C - - m int => nothing
~find method_named O.C static - g => O.g()
~find method_named O.C - - n => from static: O.n()
~find method_named O.C static - m => from static: A.m()
~find method_named O.C - - q => nothing
~find method_named M static - c Q Q => many: M.c(A,Q), M.c(Q,A)
~# Methods of a class, and what is found.
~# The more specific of two (JLS 15.12.2.5).
~find method_of A - M b null => M.b(Q)
~find method_of A - M b Q => M.b(Q)
~find method_of A - M b A => M.b(A)
~find method_of A - M c Q Q => many: M.c(A,Q), M.c(Q,A)
~find method_of A - M c A Q => M.c(A,Q)
~find method_of A - M d null => nothing
~find method_of A - M d int => M.d(int)
~find method_of A - M d int int => nothing
~# The more specific one is private.
~find method_of A - M e Q => M.e(A)
~find method_of M - M e Q => M.e(Q)
~find method_of A - M h int => not accessible: M.h(int)
~# Constructors, and what is found.
~find ctor_of A - A - => A.new()
~find ctor_of A - A - int => nothing
~find ctor_of O.C - O.H - int => O.H.new(int)
~find ctor_of A - O.H - int => not accessible: O.H.new(int)
~find ctor_of O.C - O.H - null => nothing
";

/// A declaration behind a text.
fn tell_decl(rt: &impl Abort, alloc: Global, front: &str, decl: &Decl) -> String {
    let decl = decl_text(alloc, decl).expect(rt, "memory");
    let decl = decl.as_str();
    format!(in alloc; "{front}{decl}").expect(rt, "memory")
}

fn found_text(rt: &impl Abort, alloc: Global, found: &Found) -> String {
    match found {
        Found::One(decl) => tell_decl(rt, alloc, "", decl),
        Found::Nothing => String::from_str(alloc, "nothing").expect(rt, "memory"),
        Found::Many(first, second) => {
            let first = tell_decl(rt, alloc, "many: ", first);
            let second = tell_decl(rt, alloc, ", ", second);
            format!(in alloc; "{first}{second}").expect(rt, "memory")
        }
        Found::NotAccessible(decl) => tell_decl(rt, alloc, "not accessible: ", decl),
        Found::FromStatic(decl) => tell_decl(rt, alloc, "from static: ", decl),
    }
}

/// What a call finds.
fn lookup(
    alloc: Global,
    table: &Table,
    call: &str,
    scope: &Scope,
    of: &ClassKey,
    name: &Name,
    args: &[Ty],
) -> Result<Found, AllocError> {
    match call {
        "variable" => variable(table, scope, name),
        "type_named" => type_named(table, scope, name),
        "member_type" => member_type(table, scope, of, name),
        "field_of" => field_of(table, scope, of, name),
        "method_named" => method_named(alloc, table, scope, name, args),
        "method_of" => method_of(alloc, table, scope, of, name, args),
        _ => ctor_of(alloc, table, scope, of, args),
    }
}

/// What is found at a place that has the locals i, number 0, and k and k again, numbers 1 and 2.
pub(crate) fn find(rt: &impl Abort, alloc: Global, table: &Table, asked: &str) -> String {
    let (call, rest) = cut_at(asked, " ");
    let (place, rest) = cut_at(rest, " ");
    let (context, rest) = cut_at(rest, " ");
    let (of, rest) = cut_at(rest, " ");
    let (name, args) = cut_at(rest, " ");
    let scope = scope(rt, alloc, place, context == "static", "i k k");
    let of = class_key(rt, alloc, of);
    let name = name_of(rt, alloc, name);
    let args = tys(rt, alloc, args);
    let found = lookup(alloc, table, call, &scope, &of, &name, args.as_slice());
    let found = Box::new(alloc, found.expect(rt, "memory")).expect(rt, "memory");
    found_text(rt, alloc, &found)
}
