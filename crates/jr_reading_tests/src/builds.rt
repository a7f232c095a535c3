//! Superclasses, and what types mean, in small programs.
use crate::building::{build_texts, table_of};
use jr_names::{class_text, field_text};
use jr_table::{ClassKey, Decl, Row, Table, Ty};
use std::alloc::Global;
use std::process::Abort;

pub(crate) const ROWS: &'static str = "
~# Programs, and the superclass of each class, with a blank behind each.
~superclasses class A{}class B extends A{}class T extends Thread{} => Object A Thread\x20
~superclasses class A{static class M extends A{}} => Object A\x20
~superclasses class A extends B{static class M extends N{}}class B{static class N{}} => \
    B B.N Object Object\x20
~superclasses class A{static class L extends B{}static class M extends L.N{}}class B{static \
    class N{}} => Object B B.N Object Object\x20
~# A private class is not inherited, so the name is that of the class outside.
~superclasses class A extends B{static class M extends N{}}class B{private static class \
    N{}}class N{} => B N Object Object Object\x20
~# The own N hides that of the superclass.
~superclasses class A extends B{static class N{}static class M extends N{}}class B{static class \
    N{}} => B Object A.N Object Object\x20
~# Three rounds are made until M has its superclass.
~superclasses class A{static class M extends L.N{}static class L extends K.P{}static class K \
    extends B{}}class B{static class P extends C{}}class C{static class N{}} => \
    Object C.N B.P B Object C Object Object\x20
~# Programs with a field f, and what its type means; or the fault.
~fields class A extends B{N f;static class M extends B{}}@class B{static class N{}private \
    static class P{}}@class N{} => A.f: B.N
~# It is not inherited (JLS 8.5).
~fields class A extends B{P f;static class M extends B{}}@class B{static class N{}private \
    static class P{}}@class N{} => NoTy in file 0 at byte 18
~fields class A extends B{static class M extends B{}}@class B{P f;static class N{}private \
    static class P{}}@class N{} => B.f: B.P
~fields class A extends B{static class M extends B{N f;}}@class B{static class N{}private \
    static class P{}}@class N{} => A.M.f: B.N
~fields class A extends B{A.N f;static class M extends B{}}@class B{static class N{}private \
    static class P{}}@class N{} => A.f: B.N
~fields class A extends B{static class M extends B{}}@class B{static class N{}private static \
    class P{}}@class N{N f;} => N.f: N
~# It is not accessible, but it is what the name means (JLS 6.6).
~fields class A extends B{B.P f;static class M extends B{}}@class B{static class N{}private \
    static class P{}}@class N{} => A.f: B.P
~fields class A extends B{A.P f;static class M extends B{}}@class B{static class N{}private \
    static class P{}}@class N{} => NoTy in file 0 at byte 18
~fields class A extends B{static class M extends B{}}@class B{M f;static class N{}private \
    static class P{}}@class N{} => NoTy in file 1 at byte 8
~fields class A extends B{static class M extends B{}}@class B{A.M f;static class N{}private \
    static class P{}}@class N{} => B.f: A.M
~fields class A extends B{String f;static class M extends B{}}@class B{static class N{}private \
    static class P{}}@class N{} => A.f: String
~fields class A extends B{int f;static class M extends B{}}@class B{static class N{}private \
    static class P{}}@class N{} => A.f: int
";

/// The rows behind the prelude's eight.
fn own_rows(table: &Table) -> &[Row] {
    match table.rows().get(8..) {
        None => &[],
        Some(rows) => rows,
    }
}

fn put(rt: &impl Abort, text: &mut String, piece: &str) {
    text.push_str(piece).expect(rt, "memory");
}

fn put_class(rt: &impl Abort, alloc: Global, text: &mut String, key: &ClassKey) {
    let class = class_text(alloc, key).expect(rt, "memory");
    put(rt, text, class.as_str());
}

/// The superclass of each class of a program, with a blank behind each.
pub(crate) fn superclasses(rt: &impl Abort, alloc: Global, texts: &str) -> String {
    let table = table_of(rt, alloc, texts);
    let mut text = String::new(alloc);
    for row in own_rows(&table) {
        if let Decl::Class(_) = &row.decl {
            match &row.parent {
                None => put(rt, &mut text, "none"),
                Some(key) => put_class(rt, alloc, &mut text, key),
            }
            put(rt, &mut text, " ");
        }
    }
    text
}

fn put_type(rt: &impl Abort, alloc: Global, text: &mut String, ty: &Option<Ty>) {
    match ty {
        Some(Ty::Int) => put(rt, text, "int"),
        Some(Ty::Class(key)) => put_class(rt, alloc, text, key),
        _ => put(rt, text, "another"),
    }
}

/// Each field with its type.
fn fields(rt: &impl Abort, alloc: Global, table: &Table) -> String {
    let mut text = String::new(alloc);
    for row in own_rows(table) {
        if let Decl::Field(key) = &row.decl {
            let field = field_text(alloc, key).expect(rt, "memory");
            put(rt, &mut text, field.as_str());
            put(rt, &mut text, ": ");
            put_type(rt, alloc, &mut text, &row.ty);
        }
    }
    text
}

/// Each field of a program with its type, or the first fault.
pub(crate) fn field_types(rt: &impl Abort, alloc: Global, texts: &str) -> String {
    match build_texts(rt, alloc, texts) {
        Ok(table) => fields(rt, alloc, &table),
        Err(fault) => format!(in alloc; "{fault}").expect(rt, "memory"),
    }
}
