//! Renames of each kind of declaration, as scripts of one step over one file.
use crate::memory::{put, text_of};
use crate::renaming::run_three;
use crate::rows::cut_at;
use std::alloc::Global;
use std::process::Abort;

/// The call of the shelf that fails, a byte of A.java, a new name and, behind `@`, what A.java
/// holds; how the run ends, its report without the line end, and what A.java holds in the end. Of
/// what is refused nothing is stored: a store, which would be the third call of the shelf, would
/// fail.
pub(crate) const ROWS: &'static str = "
~# A family, a field that is hidden then, a method of the prelude, one that would be overridden,
~# and a class that is not closed.
~rename 0 13 k@class A{void m(){}}class B extends A{void m(){}void n(){m();}} => Done | \
    [{\"files\":[\"A.java\"],\"reply\":\"refactored\",\"respelled\":0}] | \
    class A{void k(){}}class B extends A{void k(){}void n(){k();}}
~rename 0 37 x@class A{int x;}class B extends A{int y;int m(){return x;}} => Done | \
    [{\"files\":[\"A.java\"],\"reply\":\"refactored\",\"respelled\":1}] | \
    class A{int x;}class B extends A{int x;int m(){return super.x;}}
~rename 3 35 go@class A extends Thread{public void run(){}} => Refused | \
    [{\"number\":6,\"refusal\":\"PreludeMethod Thread.run()\",\"reply\":\"refused\"}] | \
    class A extends Thread{public void run(){}}
~rename 3 42 m@class A{void m(){}}class B extends A{void n(){}} => Refused | \
    [{\"number\":15,\"refusal\":\"OverrideChanged B A.m()\",\"reply\":\"refused\"}] | \
    class A{void m(){}}class B extends A{void n(){}}
~rename 3 6 B@class A { => Refused | [{\"number\":4,\"refusal\":\"SourceError A.java:9 Syntax\",\
    \"reply\":\"refused\"}] | class A {
~# Of locals and parameters.
~rename 0 22 b@class A{void m(){{int a=1;a=2;}{int a=3;a=4;}}} => Done | \
    [{\"files\":[\"A.java\"],\"reply\":\"refactored\",\"respelled\":0}] | \
    class A{void m(){{int b=1;b=2;}{int a=3;a=4;}}}
~rename 0 25 a@class A{int a;void m(int p){this.a=p;int q=a+p;}} => Done | \
    [{\"files\":[\"A.java\"],\"reply\":\"refactored\",\"respelled\":1}] | \
    class A{int a;void m(int a){this.a=a;int q=this.a+a;}}
~rename 3 19 b@class A{void m(int p){if(p<1){int b=2;}}} => Refused | \
    [{\"number\":14,\"refusal\":\"Clash A.m(int)#1\",\"reply\":\"refused\"}] | \
    class A{void m(int p){if(p<1){int b=2;}}}
~rename 3 37 p@class A{void m(int p){while(p<1){int b=2;}}} => Refused | \
    [{\"number\":14,\"refusal\":\"Clash A.m(int)#0\",\"reply\":\"refused\"}] | \
    class A{void m(int p){while(p<1){int b=2;}}}
~rename 0 43 c@class A{void m(int p,int q){while(p<1){int b=2;}int c=q;}} => Done | \
    [{\"files\":[\"A.java\"],\"reply\":\"refactored\",\"respelled\":0}] | \
    class A{void m(int p,int q){while(p<1){int c=2;}int c=q;}}
~rename 3 19 x@class A{void m(int p){{int x=1;}{int x=2;}int x=3;}} => Refused | \
    [{\"number\":14,\"refusal\":\"Clash A.m(int)#1\",\"reply\":\"refused\"}] | \
    class A{void m(int p){{int x=1;}{int x=2;}int x=3;}}
~rename 0 18 run@class A{int m(int wait){return wait;}} => Done | \
    [{\"files\":[\"A.java\"],\"reply\":\"refactored\",\"respelled\":0}] | \
    class A{int m(int run){return run;}}
~# Nine locals and more: those that a block takes with it come again behind it.
~rename 0 18 z@class A{int m(int a,int b,int c,int d,int e,int f,int g){int h=a;{int i=b;int \
    j=h;h=i+j+a;}int i=c;{int j=i;h=j+a;}return a+i+h;}} => Done | \
    [{\"files\":[\"A.java\"],\"reply\":\"refactored\",\"respelled\":0}] | \
    class A{int m(int z,int b,int c,int d,int e,int f,int g){int h=z;{int i=b;int \
    j=h;h=i+j+z;}int i=c;{int j=i;h=j+z;}return z+i+h;}}
~rename 0 95 n@class A{int m(int a,int b,int c,int d,int e,int f,int g){int h=a;{int i=b;int \
    j=h;h=i+j+a;}int i=c;{int j=i;h=j+a;}return a+i+h;}} => Done | \
    [{\"files\":[\"A.java\"],\"reply\":\"refactored\",\"respelled\":0}] | \
    class A{int m(int a,int b,int c,int d,int e,int f,int g){int h=a;{int i=b;int \
    j=h;h=i+j+a;}int n=c;{int j=n;h=j+a;}return a+n+h;}}
~# Of fields.
~rename 0 12 z@class A{int x;}class B extends A{int x;int y(){return x+super.x+((A)this).x;}} => \
    Done | [{\"files\":[\"A.java\"],\"reply\":\"refactored\",\"respelled\":0}] | \
    class A{int z;}class B extends A{int x;int y(){return x+super.z+((A)this).z;}}
~rename 0 37 z@class A{int x;}class B extends A{int x;int y(){return x+super.x+((A)this).x;}} => \
    Done | [{\"files\":[\"A.java\"],\"reply\":\"refactored\",\"respelled\":0}] | \
    class A{int x;}class B extends A{int z;int y(){return z+super.x+((A)this).x;}}
~rename 0 12 y@class A{int x;}class B extends A{int y;int m(B b){return x+b.x+y;}} => Done | \
    [{\"files\":[\"A.java\"],\"reply\":\"refactored\",\"respelled\":2}] | \
    class A{int y;}class B extends A{int y;int m(B b){return super.y+((A) b).y+y;}}
~rename 0 12 wait@class A{int x;int x(){return x;}} => Done | \
    [{\"files\":[\"A.java\"],\"reply\":\"refactored\",\"respelled\":0}] | \
    class A{int wait;int x(){return wait;}}
~rename 0 12 y@class A{int x;}class B extends A{int y;} => Done | \
    [{\"files\":[\"A.java\"],\"reply\":\"refactored\",\"respelled\":0}] | \
    class A{int y;}class B extends A{int y;}
~rename 3 12 I@class O{int x;static class I{}} => Refused | \
    [{\"number\":14,\"refusal\":\"Clash O.I\",\"reply\":\"refused\"}] | \
    class O{int x;static class I{}}
~# Of methods.
~rename 0 12 n@class A{int m(int a){return 1;}int m(boolean b){return 2;}}class B extends A{int \
    m(int a){return 3;}int k(){return m(1)+m(true)+super.m(2);}} => Done | \
    [{\"files\":[\"A.java\"],\"reply\":\"refactored\",\"respelled\":0}] | \
    class A{int n(int a){return 1;}int m(boolean b){return 2;}}class B extends A{int n(int \
    a){return 3;}int k(){return n(1)+m(true)+super.n(2);}}
~rename 0 71 k@class A{void m(){}}class B extends A{void m(){}}class C extends A{void m(){}void \
    n(A a){a.m();}} => Done | [{\"files\":[\"A.java\"],\"reply\":\"refactored\",\
    \"respelled\":0}] | class A{void k(){}}class B extends A{void k(){}}class C extends A{void \
    k(){}void n(A a){a.k();}}
~rename 0 64 k@class A{private void m(){}void n(){m();}}class B extends A{void m(){}} => Done | \
    [{\"files\":[\"A.java\"],\"reply\":\"refactored\",\"respelled\":0}] | \
    class A{private void m(){}void n(){m();}}class B extends A{void k(){}}
~rename 0 21 k@class A{private void m(){}void n(){m();}}class B extends A{void m(){}} => Done | \
    [{\"files\":[\"A.java\"],\"reply\":\"refactored\",\"respelled\":0}] | \
    class A{private void k(){}void n(){k();}}class B extends A{void m(){}}
~rename 0 20 k@class A{static void m(){}}class B extends A{static void m(){}void \
    n(){A.m();B.m();m();}} => Done | [{\"files\":[\"A.java\"],\"reply\":\"refactored\",\
    \"respelled\":0}] | class A{static void k(){}}class B extends A{static void m(){}void \
    n(){A.k();B.m();m();}}
~rename 3 13 k@class A{void m(){}}class B extends A{void m(){}void k(){}} => Refused | \
    [{\"number\":14,\"refusal\":\"Clash B.k()\",\"reply\":\"refused\"}] | \
    class A{void m(){}}class B extends A{void m(){}void k(){}}
~rename 0 13 k@class A{void m(){}}class B extends A{void m(){}void k(int a){}} => Done | \
    [{\"files\":[\"A.java\"],\"reply\":\"refactored\",\"respelled\":0}] | \
    class A{void k(){}}class B extends A{void k(){}void k(int a){}}
~rename 3 13 k@class A{void m(){}}class B extends A{void k(){}} => Refused | \
    [{\"number\":15,\"refusal\":\"OverrideChanged B A.m()\",\"reply\":\"refused\"}] | \
    class A{void m(){}}class B extends A{void k(){}}
~rename 3 28 run@class W extends Thread{void go(){}} => Refused | \
    [{\"number\":15,\"refusal\":\"OverrideChanged W Thread.run()\",\"reply\":\"refused\"}] | \
    class W extends Thread{void go(){}}
~rename 3 13 wait@class A{void m(){}} => Refused | \
    [{\"number\":6,\"refusal\":\"PreludeMethod wait\",\"reply\":\"refused\"}] | class A{void m(){}}
~rename 3 35 run@class A extends Thread{public void run(){}} => Refused | \
    [{\"number\":6,\"refusal\":\"PreludeMethod Thread.run()\",\"reply\":\"refused\"}] | \
    class A extends Thread{public void run(){}}
~rename 3 50 mm@class A{static void mm(){}}class B extends A{void n(){}} => Refused | \
    [{\"number\":17,\"refusal\":\"WouldNotCompile A.java:50 Override\",\"reply\":\"refused\"}] | \
    class A{static void mm(){}}class B extends A{void n(){}}
~# Of classes.
~rename 0 21 J@class O{static class I{I(){}I(int a){this.b=a;}int b;}static I i(){return new \
    I(1);}}class P{O.I i=O.i();} => Done | [{\"files\":[\"A.java\"],\"reply\":\"refactored\",\
    \"respelled\":0}] | class O{static class J{J(){}J(int a){this.b=a;}int b;}static J \
    i(){return new J(1);}}class P{O.J i=O.i();}
~rename 0 8 B@class A{A(){}A a(){return new A();}} => Done | \
    [{\"files\":[\"A.java\"],\"reply\":\"refactored\",\"respelled\":0}] | \
    class B{B(){}B a(){return new B();}}
~rename 3 6 Runnable@class A{} => Refused | [{\"number\":14,\"refusal\":\"Clash Runnable\",\
    \"reply\":\"refused\"}] | class A{}
~rename 3 6 Thread@class A{} => Refused | [{\"number\":14,\"refusal\":\"Clash Thread\",\
    \"reply\":\"refused\"}] | class A{}
~rename 3 6 I@class A{}class O{static class I{}} => Refused | \
    [{\"number\":14,\"refusal\":\"Clash O.I\",\"reply\":\"refused\"}] | \
    class A{}class O{static class I{}}
~rename 3 27 x@class O{int x;static class I{}} => Refused | \
    [{\"number\":14,\"refusal\":\"Clash O.x\",\"reply\":\"refused\"}] | \
    class O{int x;static class I{}}
~rename 3 31 x@class O{void x(){}static class I{}} => Refused | \
    [{\"number\":14,\"refusal\":\"Clash O.x()\",\"reply\":\"refused\"}] | \
    class O{void x(){}static class I{}}
~rename 0 6 x@class O{int x;static class I{}} => Done | \
    [{\"files\":[\"A.java\"],\"reply\":\"refactored\",\"respelled\":0}] | \
    class x{int x;static class I{}}
~rename 0 64 L@class P{static class In{}}class O{static class In{}static class K{}static In \
    a(O.In b,P.In c){return b;}} => Done | [{\"files\":[\"A.java\"],\"reply\":\"refactored\",\
    \"respelled\":0}] | class P{static class In{}}class O{static class In{}static class \
    L{}static In a(O.In b,P.In c){return b;}}
~# Bytes of what names nothing that can be renamed, and no identifier.
~rename 3 8 B@package p.A;class A{} => Refused | \
    [{\"number\":5,\"refusal\":\"BadTarget A.java:8 Declaration\",\"reply\":\"refused\"}] | \
    package p.A;class A{}
~rename 3 2 B@/*A*/class A{} => Refused | [{\"number\":5,\"refusal\":\"BadTarget A.java:2 \
    Declaration\",\"reply\":\"refused\"}] | /*A*/class A{}
~rename 3 7 B@class A{} => Refused | [{\"number\":5,\"refusal\":\"BadTarget A.java:7 \
    Declaration\",\"reply\":\"refused\"}] | class A{}
~rename 3 8 B@class A{Object o;} => Refused | [{\"number\":5,\"refusal\":\"BadTarget A.java:8 \
    Declaration\",\"reply\":\"refused\"}] | class A{Object o;}
~rename 3 32 B@class A extends Thread{void m(){start();}} => Refused | \
    [{\"number\":5,\"refusal\":\"BadTarget A.java:32 Declaration\",\"reply\":\"refused\"}] | \
    class A extends Thread{void m(){start();}}
~rename 3 12 B@class A{A a=new A();} => Refused | \
    [{\"number\":5,\"refusal\":\"BadTarget A.java:12 Declaration\",\"reply\":\"refused\"}] | \
    class A{A a=new A();}
~rename 0 10 C@class AB{AB f;} => Done | [{\"files\":[\"A.java\"],\"reply\":\"refactored\",\
    \"respelled\":0}] | class C{C f;}
~rename 3 6 goto@class A{static int f=2147483648;} => Refused | \
    [{\"number\":3,\"refusal\":\"BadName goto\",\"reply\":\"refused\"}] | \
    class A{static int f=2147483648;}
~# Of several that collide the first, and references that are spelled otherwise or lost.
~rename 3 37 I@class O{int I;void I(){}static class K{}}class I{} => Refused | \
    [{\"number\":14,\"refusal\":\"Clash O.I\",\"reply\":\"refused\"}] | \
    class O{int I;void I(){}static class K{}}class I{}
~rename 3 13 k@class A{void m(){}}class B extends A{void m(){}void k(){}}class C extends A{void \
    k(){}void m(){}} => Refused | [{\"number\":14,\"refusal\":\"Clash \
    B.k()\",\"reply\":\"refused\"}] | class A{void m(){}}class B extends A{void m(){}void k(){}}\
    class C extends A{void k(){}void m(){}}
~rename 0 56 b@class A{A(int a){}}class B extends A{static int b;B(int p){super(b+p);}} => \
    Done | [{\"files\":[\"A.java\"],\"reply\":\"refactored\",\"respelled\":1}] | \
    class A{A(int a){}}class B extends A{static int b;B(int b){super(B.b+b);}}
~rename 0 79 m@class O{static void m(){}static class I extends P{void n(){m();}}}class P{void \
    k(){}} => Done | [{\"files\":[\"A.java\"],\"reply\":\"refactored\",\"respelled\":1}] | \
    class O{static void m(){}static class I extends P{void n(){O.m();}}}class P{void m(){}}
~rename 0 79 m@class O{static void m(){}static class I extends P{void n(){m();}}}class P{void \
    k(int a){}} => Done | [{\"files\":[\"A.java\"],\"reply\":\"refactored\",\"respelled\":1}] | \
    class O{static void m(){}static class I extends P{void n(){O.m();}}}class P{void m(int a){}}
~rename 0 19 y@class A{static int x;}class P extends A{static int y;}class C{int m(){return \
    P.x+P.y;}} => Done | [{\"files\":[\"A.java\"],\"reply\":\"refactored\",\"respelled\":1}] | \
    class A{static int y;}class P extends A{static int y;}class C{int m(){return A.y+P.y;}}
~rename 0 37 x@class A{int x;}class B extends A{int y;}class C{int m(B b){return b.x+b.y;}} => \
    Done | [{\"files\":[\"A.java\"],\"reply\":\"refactored\",\"respelled\":1}] | \
    class A{int x;}class B extends A{int x;}class C{int m(B b){return ((A) b).x+b.x;}}
~rename 0 32 f@class A{int f;void m(){f=1;{int a=f;f=a;}f=2;}} => Done | \
    [{\"files\":[\"A.java\"],\"reply\":\"refactored\",\"respelled\":2}] | \
    class A{int f;void m(){f=1;{int f=this.f;this.f=f;}f=2;}}
~rename 3 18 q@class A{int m(int p){if(p<1)return p;else{int q=p;return q;}}} => Refused | \
    [{\"number\":14,\"refusal\":\"Clash A.m(int)#1\",\"reply\":\"refused\"}] | \
    class A{int m(int p){if(p<1)return p;else{int q=p;return q;}}}
~rename 3 33 q@class O{static class I{int m(int p){int q=p;return q;}}} => Refused | \
    [{\"number\":14,\"refusal\":\"Clash O.I.m(int)#1\",\"reply\":\"refused\"}] | \
    class O{static class I{int m(int p){int q=p;return q;}}}
~rename 0 6 Q@class O{static class I{int f;int m(int a){int b=a;return b+f;}}O o;I i;}class P \
    extends O{I j;O.I k;} => Done | [{\"files\":[\"A.java\"],\"reply\":\"refactored\",\
    \"respelled\":0}] | class Q{static class I{int f;int m(int a){int b=a;return b+f;}}Q o;I \
    i;}class P extends Q{I j;Q.I k;}
~rename 0 19 b@class A{static int a(){return 1;}}class B extends A{static int b(){return 2;}int \
    m(){return a()+b();}} => Done | [{\"files\":[\"A.java\"],\"reply\":\"refactored\",\
    \"respelled\":1}] | class A{static int b(){return 1;}}class B extends A{static int \
    b(){return 2;}int m(){return A.b()+b();}}
~rename 3 20 b@class A{static void a(){}}class B extends A{static int b(){return 2;}} => \
    Refused | [{\"number\":17,\"refusal\":\"WouldNotCompile A.java:55 \
    Override\",\"reply\":\"refused\"}] | class A{static void a(){}}class B extends A{static int \
    b(){return 2;}}
~rename 3 51 A@class A{static int f;static int g;static int m(int p){return A.f+A.g+p;}} => \
    Refused | [{\"number\":16,\"refusal\":\"LostBinding A.java:61 A found \
    A.m(int)#0\",\"reply\":\"refused\"}] | class A{static int f;static int g;static int m(int p){\
    return A.f+A.g+p;}}
~rename 3 37 m@class A{int m(A a,B b){return 1;}int k(B a,A b){return 2;}int n(B b){return \
    m(b,b);}}class B extends A{} => Refused | [{\"number\":16,\"refusal\":\"LostBinding \
    A.java:76 A.m(A,B) found A.m(A,B) and A.m(B,A)\",\"reply\":\"refused\"}] | \
    class A{int m(A a,B b){return 1;}int k(B a,A b){return 2;}int n(B b){return m(b,b);}}class B \
    extends A{}
~rename 3 19 b@class A{void m(int a,int b){}} => Refused | \
    [{\"number\":14,\"refusal\":\"Clash A.m(int,int)#1\",\"reply\":\"refused\"}] | \
    class A{void m(int a,int b){}}
~rename 3 25 a@class A{void m(int a,int b){}} => Refused | \
    [{\"number\":14,\"refusal\":\"Clash A.m(int,int)#0\",\"reply\":\"refused\"}] | \
    class A{void m(int a,int b){}}
";

/// A script that renames what stands at a byte of a file.
pub(crate) fn rename_of(
    rt: &impl Abort,
    alloc: Global,
    file: &str,
    at: &str,
    name: &str,
) -> String {
    let mut script = text_of(rt, alloc, "[{\"step\":\"rename\",\"file\":\"");
    put(rt, &mut script, file);
    put(rt, &mut script, "\",\"at\":");
    put(rt, &mut script, at);
    put(rt, &mut script, ",\"name\":\"");
    put(rt, &mut script, name);
    put(rt, &mut script, "\"}]");
    script
}

pub(crate) fn run_kind(rt: &impl Abort, alloc: Global, asked: &str) -> String {
    let (call, asked) = cut_at(asked, " ");
    let (at, asked) = cut_at(asked, " ");
    let (name, text) = cut_at(asked, "@");
    let script = rename_of(rt, alloc, "A.java", at, name);
    let line = "run s.json A.java";
    run_three(rt, alloc, script.as_str(), text, call, line, "A.java")
}
