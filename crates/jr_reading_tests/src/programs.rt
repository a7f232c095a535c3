//! The faults of programs' declarations, and their rows. The first fault is expected: of the
//! lowest kind that occurs, at its first place in file and text order.
use crate::building::build_texts;
use std::alloc::Global;
use std::process::Abort;

/// Texts of files, which `@` parts, and the first fault of their declarations or how many rows
/// there are.
pub(crate) const ROWS: &'static str = "
~# Faults of one kind.
~program package p;class A{}@package q;class B{} => PackageDiffers in file 1 at byte 0
~# A missing line stands at the file's beginning.
~program package p;class A{}@class B{} => PackageDiffers in file 1 at byte 0
~program class String{} => PreludeName in file 0 at byte 6
~program class Runnable{} => PreludeName in file 0 at byte 6
~program class A{static class Object{}} => PreludeName in file 0 at byte 21
~program class A{}class A{} => TwiceClass in file 0 at byte 15
~program class A{}@class B{}class A{} => TwiceClass in file 1 at byte 15
~program class A{static class A{}} => TwiceClass in file 0 at byte 21
~program class A extends B{} => NoSuperclass in file 0 at byte 16
~# An interface.
~program class A extends Runnable{} => NoSuperclass in file 0 at byte 16
~program class A{static class M extends B.N{}}class B{} => NoSuperclass in file 0 at byte 31
~program class A{static class M extends N.Q{}static class N extends M{}} => \
    NoSuperclass in file 0 at byte 31
~# A private class isn't inherited, and hides one of its name further up.
~program class A extends B{static class M extends N{}}class B{private static class N{}} => \
    NoSuperclass in file 0 at byte 41
~program class A extends B{static class M extends N{}}@class B extends C{private static class \
    N{}}class C{static class N{}} => NoSuperclass in file 0 at byte 41
~program class A extends B{}class B extends A{} => Cycle in file 0 at byte 6
~program class A extends A{} => Cycle in file 0 at byte 6
~# X is above none.
~program class X extends A{}class A extends B{}class B extends C{}class C extends A{} => \
    Cycle in file 0 at byte 25
~# The own M hides A's.
~program class A{static class M{}}class B extends A{static class M extends M{}} => \
    Cycle in file 0 at byte 56
~program class A{X f;} => NoTy in file 0 at byte 8
~program class A{void m(int a,A.X b){}} => NoTy in file 0 at byte 21
~program class A{int f;int f;} => TwiceMember in file 0 at byte 18
~program class A{void m(int a,int a){}} => TwiceMember in file 0 at byte 25
~program class A{void m(A a){}void m(A b){}} => TwiceMember in file 0 at byte 26
~program class A{A(){}A(){}} => TwiceMember in file 0 at byte 13
~program class A{int B;static class B{}} => MemberTypeName in file 0 at byte 27
~program class A{private public int f;} => BadModifiers in file 0 at byte 27
~program class A{class B{}} => BadModifiers in file 0 at byte 14
~program class A{static int f=1+1;} => StaticInit in file 0 at byte 21
~# The lower kind wins, wherever it stands.
~program package p;class String{}@package q;class B{} => PackageDiffers in file 1 at byte 0
~program class A{}class A{}class String{} => PreludeName in file 0 at byte 24
~program class A extends X{}class B{}@class B{} => TwiceClass in file 1 at byte 6
~program class A extends A{}class B extends X{} => NoSuperclass in file 0 at byte 35
~program class A{X f;}@class B extends B{} => Cycle in file 1 at byte 6
~program class A{int f;int f;X g;} => NoTy in file 0 at byte 20
~program class A{int B;static class B{}int f;int f;} => TwiceMember in file 0 at byte 40
~program class A{private public int f;int B;static class B{}} => \
    MemberTypeName in file 0 at byte 48
~program class A{static int f=1+1;private public int g;} => BadModifiers in file 0 at byte 44
~program class A{static int f=1+1;static int g=2+2;} => StaticInit in file 0 at byte 21
~# Programs without faults.
~program class A{} => 10 rows
~program class A{A(){}static int f=1;void m(A.B b){}static class B extends A{}} => 14 rows
";

/// The first fault of a program, or how many rows it has.
pub(crate) fn outcome(rt: &impl Abort, alloc: Global, texts: &str) -> String {
    match build_texts(rt, alloc, texts) {
        Ok(table) => format!(in alloc; "{} rows", table.rows().len()).expect(rt, "memory"),
        Err(fault) => format!(in alloc; "{fault}").expect(rt, "memory"),
    }
}
