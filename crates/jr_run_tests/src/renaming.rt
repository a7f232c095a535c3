//! Renames in scripts: over two and three files, and taken back.
use crate::kinds::rename_of;
use crate::rows::{cut_at, number};
use crate::runs::{end_told, run_line};
use std::alloc::Global;
use std::process::Abort;

const A: &str = "class A{int x;}";

const B: &str = "class B extends A{int y;int m(){return x;}}";

/// Scripts over A.java and B.java; how the run ends, its report without the line end, and what the
/// files hold in the end. A field gets the name of an inherited one, a class is renamed in both
/// files, two renames are taken back and one is done again; members that a rename leaves as they
/// are are shown behind it, and named by the next; and one is refused. Over A.java alone: the class
/// in front of a type's dot comes to be another one, or gets the new name.
pub(crate) const ROWS: &'static str = "
~two [{\"step\":\"rename\",\"file\":\"B.java\",\"at\":22,\"name\":\"x\"}] => \
    Done | [{\"files\":[\"B.java\"],\"reply\":\"refactored\",\"respelled\":1}] | \
    class A{int x;} class B extends A{int x;int m(){return super.x;}}
~two [{\"step\":\"rename\",\"file\":\"B.java\",\"at\":16,\"name\":\"C\"}] => \
    Done | [{\"files\":[\"A.java\",\"B.java\"],\"reply\":\"refactored\",\"respelled\":0}] | \
    class C{int x;} class B extends C{int y;int m(){return x;}}
~two [{\"step\":\"rename\",\"file\":\"A.java\",\"at\":6,\"name\":\"C\"},\
    {\"step\":\"rename\",\"file\":\"A.java\",\"at\":12,\"name\":\"z\"},\
    {\"step\":\"undo\"},{\"step\":\"undo\"},{\"step\":\"redo\"}] => \
    Done | [{\"files\":[\"A.java\",\"B.java\"],\"reply\":\"refactored\",\"respelled\":0},\
    {\"files\":[\"A.java\",\"B.java\"],\"reply\":\"refactored\",\"respelled\":0},\
    {\"reply\":\"undone\"},{\"reply\":\"undone\"},{\"reply\":\"redone\"}] | \
    class C{int x;} class B extends C{int y;int m(){return x;}}
~two [{\"step\":\"rename\",\"file\":\"B.java\",\"at\":22,\"name\":\"k\"},\
    {\"step\":\"show\",\"file\":\"A.java\",\"what\":\"bindings\"},\
    {\"step\":\"rename\",\"file\":\"A.java\",\"at\":12,\"name\":\"y\"},\
    {\"step\":\"show\",\"file\":\"B.java\",\"what\":\"bindings\"},{\"step\":\"undo\"},\
    {\"step\":\"rename\",\"file\":\"B.java\",\"at\":22,\"name\":\"x\"},\
    {\"step\":\"show\",\"file\":\"B.java\",\"what\":\"bindings\"}] => \
    Done | [{\"files\":[\"B.java\"],\"reply\":\"refactored\",\"respelled\":0},\
    {\"lines\":[],\"reply\":\"shown\"},\
    {\"files\":[\"A.java\",\"B.java\"],\"reply\":\"refactored\",\"respelled\":0},\
    {\"lines\":[\"16 A A\",\"39 y A.y\"],\"reply\":\"shown\"},{\"reply\":\"undone\"},\
    {\"files\":[\"B.java\"],\"reply\":\"refactored\",\"respelled\":1},\
    {\"lines\":[\"16 A A\",\"45 x A.x\"],\"reply\":\"shown\"}] | \
    class A{int x;} class B extends A{int x;int m(){return super.x;}}
~two [{\"step\":\"rename\",\"file\":\"A.java\",\"at\":6,\"name\":\"B\"},\
    {\"step\":\"rename\",\"file\":\"C.java\",\"at\":6,\"name\":\"B\"}] => \
    Refused | [{\"number\":14,\"refusal\":\"Clash B\",\"reply\":\"refused\"},\
    {\"number\":1,\"refusal\":\"NoSuchFile C.java\",\"reply\":\"refused\"}] | \
    class A{int x;} class B extends A{int y;int m(){return x;}}
~one 0 [{\"step\":\"edit\",\"file\":\"A.java\",\"from\":0,\"to\":9,\"text\":\"class \
    W{static class X{static int f;}}class N extends W{}class T{static class N extends W{}}class S \
    extends T{private static class N{}}class A extends S{N.X v;}\"},\
    {\"step\":\"rename\",\"file\":\"A.java\",\"at\":131,\"name\":\"M\"}] => \
    Refused | [{\"reply\":\"edited\"},{\"number\":16,\"refusal\":\"LostBinding A.java:153 N \
    found T.N\",\"reply\":\"refused\"}] | class W{static class X{static int f;}}class N extends \
    W{}class T{static class N extends W{}}class S extends T{private static class N{}}class A \
    extends S{N.X v;}
~one 0 [{\"step\":\"edit\",\"file\":\"A.java\",\"from\":0,\"to\":9,\"text\":\"class \
    W{static class X{static int f;}}class N extends W{}class T{static class N{}}class S \
    extends T{private static class N{}}class A extends S{N.X v;}\"},\
    {\"step\":\"rename\",\"file\":\"A.java\",\"at\":121,\"name\":\"M\"}] => \
    Done | [{\"reply\":\"edited\"},\
    {\"files\":[\"A.java\"],\"reply\":\"refactored\",\"respelled\":1}] | \
    class W{static class X{static int f;}}class N extends W{}class T{static class N{}}class \
    S extends T{private static class M{}}class A extends S{W.X v;}
~one 0 [{\"step\":\"edit\",\"file\":\"A.java\",\"from\":0,\"to\":9,\"text\":\"class \
    W{static class X{}}class N extends W{}class A{N.X v;}\"},\
    {\"step\":\"rename\",\"file\":\"A.java\",\"at\":31,\"name\":\"M\"}] => \
    Done | [{\"reply\":\"edited\"},\
    {\"files\":[\"A.java\"],\"reply\":\"refactored\",\"respelled\":0}] | \
    class W{static class X{}}class M extends W{}class A{M.X v;}
";

/// How a run of the script over the two files ends.
pub(crate) fn run_two(rt: &impl Abort, alloc: Global, script: &str) -> String {
    let (first, second): (&str, &str) = (A, B);
    let held = [
        ("s.json", script.as_bytes()),
        ("A.java", first.as_bytes()),
        ("B.java", second.as_bytes()),
    ];
    let line = "run s.json A.java B.java";
    let end = run_line(rt, alloc, held.as_slice(), line, 0, 0);
    end_told(rt, alloc, &end, "A.java,B.java")
}

/// The call of the shelf that fails, a file and a byte of it, a new name and, behind `@` each, what
/// A.java, B.java and C.java hold; how the run ends, its report without the line end, and what the
/// files hold in the end. A class is named where it is declared, in a cast, in front of a dot and
/// at its constructor; then a member class, a class whose new name is a parameter's, overloaded
/// methods that are overridden, and a field.
pub(crate) const THREE: &'static str = "
~three 0 A.java 16 Q@package p;class K{static int n;static class In{int w;}int v;K(int \
    a){v=a;n=a;}static K of(){return new K(1);}}@package p;class B extends K{B(){super(2);}K \
    k(Object o){return (K)o;}Class c(){return K.class;}int m(){return K.n+((K)this).v;}}@package \
    p;class C{K.In i=new K.In();K k=K.of();void f(K x,K.In y){K.n=x.v+y.w;K z=new K(3);f(z,y);}} \
    => Done | [{\"files\":[\"A.java\",\"B.java\",\"C.java\"],\"reply\":\"refactored\",\
    \"respelled\":0}] | package p;class Q{static int n;static class In{int w;}int v;Q(int \
    a){v=a;n=a;}static Q of(){return new Q(1);}} package p;class B extends Q{B(){super(2);}Q \
    k(Object o){return (Q)o;}Class c(){return Q.class;}int m(){return Q.n+((Q)this).v;}} package \
    p;class C{Q.In i=new Q.In();Q k=Q.of();void f(Q x,Q.In y){Q.n=x.v+y.w;Q z=new Q(3);f(z,y);}}
~three 0 B.java 64 Q@package p;class K{static int n;static class In{int w;}int v;K(int \
    a){v=a;n=a;}static K of(){return new K(1);}}@package p;class B extends K{B(){super(2);}K \
    k(Object o){return (K)o;}Class c(){return K.class;}int m(){return K.n+((K)this).v;}}@package \
    p;class C{K.In i=new K.In();K k=K.of();void f(K x,K.In y){K.n=x.v+y.w;K z=new K(3);f(z,y);}} \
    => Done | [{\"files\":[\"A.java\",\"B.java\",\"C.java\"],\"reply\":\"refactored\",\
    \"respelled\":0}] | package p;class Q{static int n;static class In{int w;}int v;Q(int \
    a){v=a;n=a;}static Q of(){return new Q(1);}} package p;class B extends Q{B(){super(2);}Q \
    k(Object o){return (Q)o;}Class c(){return Q.class;}int m(){return Q.n+((Q)this).v;}} package \
    p;class C{Q.In i=new Q.In();Q k=Q.of();void f(Q x,Q.In y){Q.n=x.v+y.w;Q z=new Q(3);f(z,y);}}
~three 0 C.java 66 Q@package p;class K{static int n;static class In{int w;}int v;K(int \
    a){v=a;n=a;}static K of(){return new K(1);}}@package p;class B extends K{B(){super(2);}K \
    k(Object o){return (K)o;}Class c(){return K.class;}int m(){return K.n+((K)this).v;}}@package \
    p;class C{K.In i=new K.In();K k=K.of();void f(K x,K.In y){K.n=x.v+y.w;K z=new K(3);f(z,y);}} \
    => Done | [{\"files\":[\"A.java\",\"B.java\",\"C.java\"],\"reply\":\"refactored\",\
    \"respelled\":0}] | package p;class Q{static int n;static class In{int w;}int v;Q(int \
    a){v=a;n=a;}static Q of(){return new Q(1);}} package p;class B extends Q{B(){super(2);}Q \
    k(Object o){return (Q)o;}Class c(){return Q.class;}int m(){return Q.n+((Q)this).v;}} package \
    p;class C{Q.In i=new Q.In();Q k=Q.of();void f(Q x,Q.In y){Q.n=x.v+y.w;Q z=new Q(3);f(z,y);}}
~three 0 A.java 60 Q@package p;class K{static int n;static class In{int w;}int v;K(int \
    a){v=a;n=a;}static K of(){return new K(1);}}@package p;class B extends K{B(){super(2);}K \
    k(Object o){return (K)o;}Class c(){return K.class;}int m(){return K.n+((K)this).v;}}@package \
    p;class C{K.In i=new K.In();K k=K.of();void f(K x,K.In y){K.n=x.v+y.w;K z=new K(3);f(z,y);}} \
    => Done | [{\"files\":[\"A.java\",\"B.java\",\"C.java\"],\"reply\":\"refactored\",\
    \"respelled\":0}] | package p;class Q{static int n;static class In{int w;}int v;Q(int \
    a){v=a;n=a;}static Q of(){return new Q(1);}} package p;class B extends Q{B(){super(2);}Q \
    k(Object o){return (Q)o;}Class c(){return Q.class;}int m(){return Q.n+((Q)this).v;}} package \
    p;class C{Q.In i=new Q.In();Q k=Q.of();void f(Q x,Q.In y){Q.n=x.v+y.w;Q z=new Q(3);f(z,y);}}
~three 0 C.java 31 Jn@package p;class K{static int n;static class In{int w;}int v;K(int \
    a){v=a;n=a;}static K of(){return new K(1);}}@package p;class B extends K{B(){super(2);}K \
    k(Object o){return (K)o;}Class c(){return K.class;}int m(){return K.n+((K)this).v;}}@package \
    p;class C{K.In i=new K.In();K k=K.of();void f(K x,K.In y){K.n=x.v+y.w;K z=new K(3);f(z,y);}} \
    => Done | [{\"files\":[\"A.java\",\"C.java\"],\"reply\":\"refactored\",\"respelled\":0}] | \
    package p;class K{static int n;static class Jn{int w;}int v;K(int a){v=a;n=a;}static K \
    of(){return new K(1);}} package p;class B extends K{B(){super(2);}K k(Object o){return \
    (K)o;}Class c(){return K.class;}int m(){return K.n+((K)this).v;}} package p;class C{K.Jn \
    i=new K.Jn();K k=K.of();void f(K x,K.Jn y){K.n=x.v+y.w;K z=new K(3);f(z,y);}}
~three 5 A.java 16 Q@package p;class K{static int n;static class In{int w;}int v;K(int \
    a){v=a;n=a;}static K of(){return new K(1);}}@package p;class B extends K{B(){super(2);}K \
    k(Object o){return (K)o;}Class c(){return K.class;}int m(){return K.n+((K)this).v;}}@package \
    p;class C{K.In i=new K.In();K k=K.of();void f(K Q,K.In y){K.n=Q.v+y.w;K z=new K(3);f(z,y);}} \
    => Refused | [{\"number\":16,\"refusal\":\"LostBinding C.java:66 K found \
    C.f(Q,Q.In)#0\",\"reply\":\"refused\"}] | package p;class K{static int n;static class In{int \
    w;}int v;K(int a){v=a;n=a;}static K of(){return new K(1);}} package p;class B extends \
    K{B(){super(2);}K k(Object o){return (K)o;}Class c(){return K.class;}int m(){return \
    K.n+((K)this).v;}} package p;class C{K.In i=new K.In();K k=K.of();void f(K Q,K.In \
    y){K.n=Q.v+y.w;K z=new K(3);f(z,y);}}
~three 0 B.java 22 k@class A{int m(int a){return a;}int m(){return m(1);}}@class B extends A{int \
    m(int a){return super.m(a);}}@class C extends A{int m(int b){return b;}int n(B b){return \
    b.m(2)+b.m()+m(3);}} => Done | [{\"files\":[\"A.java\",\"B.java\",\"C.java\"],\
    \"reply\":\"refactored\",\"respelled\":0}] | class A{int k(int a){return a;}int m(){return \
    k(1);}} class B extends A{int k(int a){return super.k(a);}} class C extends A{int k(int \
    b){return b;}int n(B b){return b.k(2)+b.m()+k(3);}}
~three 0 A.java 19 y@class A{static int x;}@class B{int m(int y){return A.x+y;}}@class C extends \
    A{static int y;int m(){return x+y;}} => Done | \
    [{\"files\":[\"A.java\",\"B.java\",\"C.java\"],\"reply\":\"refactored\",\"respelled\":1}] | \
    class A{static int y;} class B{int m(int y){return A.y+y;}} class C extends A{static int \
    y;int m(){return A.y+y;}}
";

/// The call of the shelf that fails, a script and, behind `@`, what A.java holds; how the run ends,
/// its report, and what A.java holds in the end. A rename and an edit are taken back, and nothing
/// is left to take back; where an edit follows, nothing can be done again.
pub(crate) const BACK: &'static str = "
~back 3 [{\"step\":\"rename\",\"file\":\"A.java\",\"at\":41,\"name\":\"b\"},{\
    \"step\":\"edit\",\"file\":\"A.java\",\"from\":0,\"to\":0,\"text\":\" \
    \"},{\"step\":\"undo\"},{\"step\":\"undo\"},{\"step\":\"undo\"}]@class A{static int f;static \
    void m(){int a=1;f=a;}} => Refused | [{\"files\":[\"A.java\"],\"reply\":\"refactored\",\
    \"respelled\":0},{\"reply\":\"edited\"},{\"reply\":\"undone\"},{\"reply\":\"undone\"},{\
    \"number\":21,\"refusal\":\"NothingToUndo\",\"reply\":\"refused\"}] | \
    class A{static int f;static void m(){int a=1;f=a;}}
~back 0 [{\"step\":\"rename\",\"file\":\"A.java\",\"at\":41,\"name\":\"b\"},{\
    \"step\":\"edit\",\"file\":\"A.java\",\"from\":0,\"to\":0,\"text\":\" \
    \"},{\"step\":\"undo\"},{\"step\":\"undo\"},{\"step\":\"undo\"},{\"step\":\"edit\",\
    \"file\":\"A.java\",\"from\":0,\"to\":0,\"text\":\" \"},{\"step\":\"redo\"}]@class A{static \
    int f;static void m(){int a=1;f=a;}} => Refused | \
    [{\"files\":[\"A.java\"],\"reply\":\"refactored\",\"respelled\":0},{\"reply\":\"edited\"},{\
    \"reply\":\"undone\"},{\"reply\":\"undone\"},{\"number\":21,\"refusal\":\"NothingToUndo\",\
    \"reply\":\"refused\"},{\"reply\":\"edited\"},{\"number\":22,\"refusal\":\"NothingToRedo\",\
    \"reply\":\"refused\"}] |  class A{static int f;static void m(){int a=1;f=a;}}
";

/// A run of the words over a script and these files, of which `@` parts the texts.
pub(crate) fn run_three(
    rt: &impl Abort,
    alloc: Global,
    script: &str,
    texts: &str,
    call: &str,
    line: &str,
    names: &str,
) -> String {
    let (first, rest) = cut_at(texts, "@");
    let (second, third) = cut_at(rest, "@");
    let held = [
        ("s.json", script.as_bytes()),
        ("A.java", first.as_bytes()),
        ("B.java", second.as_bytes()),
        ("C.java", third.as_bytes()),
    ];
    let call = number(rt, call);
    let end = run_line(rt, alloc, held.as_slice(), line, call, 0);
    end_told(rt, alloc, &end, names)
}

pub(crate) fn run_renamed(rt: &impl Abort, alloc: Global, asked: &str) -> String {
    let (call, asked) = cut_at(asked, " ");
    let (file, asked) = cut_at(asked, " ");
    let (at, asked) = cut_at(asked, " ");
    let (name, texts) = cut_at(asked, "@");
    let script = rename_of(rt, alloc, file, at, name);
    let line = "run s.json A.java B.java C.java";
    let names = "A.java,B.java,C.java";
    run_three(rt, alloc, script.as_str(), texts, call, line, names)
}

pub(crate) fn run_back(rt: &impl Abort, alloc: Global, asked: &str) -> String {
    let (call, asked) = cut_at(asked, " ");
    let (script, text) = cut_at(asked, "@");
    run_three(rt, alloc, script, text, call, "run s.json A.java", "A.java")
}
