//! The command `rename`, and what is told of it.
use crate::memory::{put_times, text_of, words_of};
use crate::rows::assert_same;
use crate::runs::{run_failing, run_over};
use crate::shows::nest;
use jr_files::SourceFault;
use jr_script::ScriptFault;
use jr_shelf::MemorySink;
use jr_top::{Message, Status};
use std::alloc::Global;
use std::process::Abort;

/// Words and, behind `@`, what A.java holds; how the run ends, and what the sink takes.
pub(crate) const ROWS: &'static str = "
~source rename A.java 41 b@class A{static int f;static void m(){int a=1;f=a;}} => \
    Done | class A{static int f;static void m(){int b=1;f=b;}}
~source rename A.java 41 f@class A{static int f;static void m(){int a=1;f=a;}} => \
    Done | class A{static int f;static void m(){int f=1;A.f=f;}}
~source rename A.java 0041 f@class A{static int f;static void m(){int a=1;f=a;}} => \
    Done | class A{static int f;static void m(){int f=1;A.f=f;}}
~source rename A.java 45 f@class A{static int f;static void m(){f=1;int a=f;f=f+a+f;}} => \
    Done | class A{static int f;static void m(){f=1;int f=A.f;A.f=A.f+f+A.f;}}
~source rename A.java 39 f@class A{static int f;static void m(int A){f=A;}} => \
    Done | class A{static int f;static void m(int f){A.f=f;}}
~source rename A.java 47 A@class A{static int f;static void m(){A.f=1;int a=2;f=a;}static void \
    n(int a){a=f;}} => \
    Done | class A{static int f;static void m(){A.f=1;int A=2;f=A;}static void n(int a){a=f;}}
~source rename A.java 13 k@class A{void m(){}}class B extends A{void m(){}void n(){m();}} => \
    Done | class A{void k(){}}class B extends A{void k(){}void n(){k();}}
~source rename A.java 37 x@class A{int x;}class B extends A{int y;int m(){return x;}} => \
    Done | class A{int x;}class B extends A{int x;int m(){return super.x;}}
~source rename A.java 6 C@class A{}class B extends A{A a(){return (A)new A();}Class \
    c(){return A.class;}} => \
    Done | class C{}class B extends C{C a(){return (C)new C();}Class c(){return C.class;}}
~# A class of three words in front of a dot, whose words lead to it or don't.
~source rename A.java 85 r@class P{static class C{static int x;}}class A{static class B extends \
    P{}}class Z{int q;int m(){return A.B.C.x;}} => \
    Done | class P{static class C{static int x;}}class A{static class B extends P{}}class Z{int \
    r;int m(){return A.B.C.x;}}
~source rename A.java 85 r@class P{static class C{static int x;}}class A{static class B extends \
    P{}}class Z{int q;int m(int P){return A.B.C.x;}} => \
    Done | class P{static class C{static int x;}}class A{static class B extends P{}}class Z{int \
    r;int m(int P){return A.B.C.x;}}
~source rename A.java 82 A@class P{static class C{static int x;}}class A{static class B extends \
    P{}int m(int q){return A.B.C.x+q;}} => \
    Done | class P{static class C{static int x;}}class A{static class B extends P{}int m(int \
    A){return P.C.x+A;}}
~source rename A.java 131 M@class W{static class X{static int f;}}class N extends W{}class \
    T{static class N extends W{}}class S extends T{private static class N{}}class A extends \
    S{int m(){return N.X.f;}} => \
    Refused | refused 16 LostBinding A.java:168 N found T.N\n
~# A class in front of the dot of a type comes to be another one, which has the member class too:
~# the type stays, and the class in front is lost.
~source rename A.java 131 M@class W{static class X{static int f;}}class N extends W{}class \
    T{static class N extends W{}}class S extends T{private static class N{}}class A extends \
    S{N.X v;} => \
    Refused | refused 16 LostBinding A.java:153 N found T.N\n
~source rename A.java 128 M@class W{static class X{}}class N extends W{}class T extends W{static \
    class N extends W{}}class S extends T{private static class N{}}class A extends S{N.X v;} => \
    Refused | refused 16 LostBinding A.java:150 N found T.N\n
~source rename A.java 124 M@class W{static class X{}}class N extends W{}class T{static class \
    N{}static class W{}}class S extends T{private static class N{}}class A extends S{N.X v;} => \
    Refused | refused 16 LostBinding A.java:146 N found T.N\n
~# Words in front of a dot are asked as they are, whatever class they find: the member stays, and
~# the class in front is spelled by its own words, or lost.
~source rename A.java 77 M@class T{static class N{static int x;}}class S extends T{private \
    static class N{}}class U{static class N extends T.N{}static class A extends S{int \
    m(){return N.x;}}} => \
    Done | class T{static class N{static int x;}}class S extends T{private static class \
    M{}}class U{static class N extends T.N{}static class A extends S{int m(){return U.N.x;}}}
~source rename A.java 89 M@class T{static class N{static int x(){return 1;}}}class S extends \
    T{private static class N{}}class U{static class N extends T.N{}static class A extends \
    S{int m(){return N.x();}}} => \
    Done | class T{static class N{static int x(){return 1;}}}class S extends T{private static \
    class M{}}class U{static class N extends T.N{}static class A extends S{int m(){return \
    U.N.x();}}}
~source rename A.java 131 M@class O{static class K{static int x;}}class U extends O{}class \
    T{static class O extends U{}}class S extends T{private static class O{}}class A extends \
    S{O.K f;int m(){return O.K.x;}} => \
    Refused | refused 16 LostBinding A.java:153 O found T.O\n
~source rename A.java 131 M@class O{static class K{static int x;}}class U extends O{}class \
    T{static class O extends U{}}class S extends T{private static class O{}}class A extends \
    S{int m(){return O.K.x;}} => \
    Refused | refused 16 LostBinding A.java:168 O found T.O\n
~source rename A.java 115 M@class D{static int x;}class N extends D{}class T{static class N \
    extends D{}}class S extends T{private static class N{}}class A extends S{int m(){return \
    N.x;}} => \
    Refused | refused 16 LostBinding A.java:152 N found T.N\n
~source rename A.java 112 M@class P{static class K{static int x;}}class T{static class N \
    extends P{}}class S extends T{private static class N{}}class U{static class N extends \
    T.N{}static class A extends S{int m(){return N.K.x;}}} => \
    Done | class P{static class K{static int x;}}class T{static class N extends P{}}class S \
    extends T{private static class M{}}class U{static class N extends T.N{}static class A \
    extends S{int m(){return U.N.K.x;}}}
~source rename A.java 99 M@class P{static class K{}}class T{static class N extends P{}}class S \
    extends T{private static class N{}}class U{static class N extends T.N{}static class A \
    extends S{N.K f;}} => \
    Refused | refused 16 LostBinding A.java:164 U.N found T.N\n
~# The member is found in no class of that name any more: with another spelling the class is gone.
~source rename A.java 105 M@class D{static int x;}class N extends D{}class T{static class \
    N{}}class S extends T{private static class N{}}class A extends S{int m(){return N.x;}} => \
    Done | class D{static int x;}class N extends D{}class T{static class N{}}class S extends \
    T{private static class M{}}class A extends S{int m(){return D.x;}}
~source rename A.java 126 M@class D{static void r(){}}class N extends D{}class T{static class \
    N{static void r(){}}}class S extends T{private static class N{}}class A extends S{void \
    m(){N.r();}} => \
    Done | class D{static void r(){}}class N extends D{}class T{static class N{static void \
    r(){}}}class S extends T{private static class M{}}class A extends S{void m(){D.r();}}
~# A local or a field stands in the way of the words.
~source rename A.java 66 K@class D{static int x;}class O{static class K extends D{}int m(int \
    q,int D){return K.x;}} => \
    Refused | refused 16 LostBinding A.java:84 D.x found none\n
~source rename A.java 47 K@class B{static void r(){}}class C{static class M extends B{}static \
    void n(int K,int B){M.r();}} => \
    Refused | refused 16 LostBinding A.java:89 B.r() found none\n
~source rename A.java 6 y@class B{static int y;static class K extends B{}static int m(){return \
    B.K.y;}} => \
    Refused | refused 16 LostBinding A.java:73 B.y found none\n
~source rename A.java 146 C@class B{static class K{static int h;}}class C extends B{static \
    class K extends B{}}class A{static int B;static class E extends C{static int n(int \
    f){return C.K.K.h;}}} => \
    Refused | refused 16 LostBinding A.java:160 B.K found none\n
~source rename A.java 6 B@class A{static int f=-2147483648;} => \
    Done | class B{static int f=-2147483648;}
~source rename A.java 29 B@class A{static void m(){{int a=1;}}} => \
    Done | class A{static void m(){{int B=1;}}}
~source rename A.java 999 b@class A{static int f;static void m(){int a=1;f=a;}} => \
    Refused | refused 2 BadPlace A.java:999\n
~source rename A.java 4294967295 b@class A{static int f;static void m(){int a=1;f=a;}} => \
    Refused | refused 2 BadPlace A.java:4294967295\n
~source rename A.java 41 goto@class A{static int f;static void m(){int a=1;f=a;}} => \
    Refused | refused 3 BadName goto\n
~source rename A.java 0 b@class A{static int f;static void m(){int a=1;f=a;}} => \
    Refused | refused 5 BadTarget A.java:0 Declaration\n
~source rename A.java 35 go@class A extends Thread{public void run(){}} => \
    Refused | refused 6 PreludeMethod Thread.run()\n
~source rename A.java 28 b@class A{static void m(){int a=1;int b=2;}} => \
    Refused | refused 14 Clash A.m()#1\n
~source rename A.java 46 f@class A{static int f;static void m(int A){int a=1;f=a+A;}} => \
    Refused | refused 16 LostBinding A.java:50 A.f found A.m(int)#1\n
~source rename A.java 42 m@class A{void m(){}}class B extends A{void n(){}} => \
    Refused | refused 15 OverrideChanged B A.m()\n
~# Comments that are not closed, texts that are no unit, declarations with a fault, and then a rule
~# that is broken.
~source rename A.java 6 B@class A{/*/} => Refused | refused 4 SourceError A.java:8 OpenComment\n
~source rename A.java 0 B@/* => Refused | refused 4 SourceError A.java:0 OpenComment\n
~source rename A.java 6 B@class A{int f=1 2;} => \
    Refused | refused 4 SourceError A.java:16 Syntax\n
~source rename A.java 6 B@class A{int f=1; => Refused | refused 4 SourceError A.java:16 Syntax\n
~source rename A.java 33 B@class A{static void m(){if(b)int a=1;}} => \
    Refused | refused 4 SourceError A.java:29 Syntax\n
~source rename A.java 6 B@class A{static int f=2147483648;} => \
    Refused | refused 4 SourceError A.java:21 Syntax\n
~source rename A.java 6 B@class A extends B{} => \
    Refused | refused 4 SourceError A.java:16 NoSuperclass\n
~source rename A.java 6 B@class A extends B{}class B extends A{} => \
    Refused | refused 4 SourceError A.java:6 Cycle\n
~source rename A.java 6 B@class A{int m(){return x;}} => \
    Refused | refused 4 SourceError A.java:23 NoVariable\n
~source rename A.java 41 B@class A{static int a;static void m(){int a=a;}} => \
    Refused | refused 4 SourceError A.java:43 Forward\n
~# A clash with a declaration in front, and lost references: one behind the name of the class, one
~# behind a local that obscures the class, and one where a field obscures it.
~source rename A.java 33 b@class A{static void m(int b){int a=1;}} => \
    Refused | refused 14 Clash A.m(int)#0\n
~source rename A.java 41 A@class A{static int f;static void m(){int a=1;A.f=a+f;}} => \
    Refused | refused 16 LostBinding A.java:45 A found A.m()#0\n
~source rename A.java 41 f@class A{static int f;static void m(){int a=1;f=a;int A=2;f=A;}} => \
    Refused | refused 16 LostBinding A.java:57 A.f found A.m()#0\n
~source rename A.java 41 A@class A{static int A;static void m(){int a=1;A=a;}} => \
    Refused | refused 16 LostBinding A.java:45 A.A found A.m()#0\n
";

/// The text, with spaces behind it so that it has so many bytes.
fn assert_filled(
    rt: &impl Abort,
    alloc: Global,
    text: &str,
    len: usize,
    line: &str,
    expected: &str,
) {
    let mut long = text_of(rt, alloc, text);
    put_times(rt, &mut long, " ", len.wrapping_sub(text.len()));
    assert_same(
        rt,
        run_over(rt, alloc, long.as_bytes(), line).as_str(),
        expected,
    );
}

const RENAMED: &'static str = "class A{static int f;static void m(){int a=1;f=a;}}";

// The one fetch fails, and then the one put.
fn assert_failing(rt: &impl Abort, alloc: Global, line: &str, call: u32, put: u32, expected: &str) {
    let told = run_failing(rt, alloc, RENAMED, line, call, put);
    assert_same(rt, told.as_str(), expected);
}

fn assert_over(rt: &impl Abort, alloc: Global, source: &[u8], line: &str, expected: &str) {
    assert_same(rt, run_over(rt, alloc, source, line).as_str(), expected);
}

#[test]
fn faults(rt: HostRuntime) {
    let alloc = rt.alloc();
    let text = "class A{static void m(){int a=1;}}";
    let expected = "Refused | refused 20 TooLong 1048577\n";
    assert_filled(&rt, alloc, text, 1_048_576, "rename A.java 28 bb", expected);
    let expected = "BadSource { word: 1, fault: TooLong } | ";
    assert_filled(&rt, alloc, "", 1_048_577, "rename A.java 41 b", expected);
    let line = "rename A.java 41 b";
    let missing = "rename B.java 41 b";
    assert_over(
        &rt,
        alloc,
        RENAMED.as_bytes(),
        missing,
        "ReadFault { word: 1 } | ",
    );
    let expected = "BadSource { word: 1, fault: NotUtf8 { valid: 9 } } | ";
    assert_over(&rt, alloc, b"class A{}\xff", line, expected);
    let expected = "BadSource { word: 1, fault: NotUtf8 { valid: 0 } } | ";
    assert_over(&rt, alloc, b"\xc3", "rename A.java 0 b", expected);
    let of_class = "rename A.java 6 B";
    let expected = "Refused | refused 4 SourceError A.java:9 Syntax\n";
    assert_over(&rt, alloc, b"class A {", of_class, expected);
    // The brace is the first bracket that is open, so 99 more may be.
    let deep = nest(&rt, alloc, 100);
    let expected = "Refused | refused 4 SourceError A.java:113 Deep\n";
    assert_over(&rt, alloc, deep.as_bytes(), of_class, expected);
    assert_failing(&rt, alloc, line, 1, 0, "ReadFault { word: 1 } | ");
    assert_failing(&rt, alloc, line, 0, 1, "WriteFault { stored: 0 } | ");
    let refused = "rename A.java 999 b";
    assert_failing(&rt, alloc, refused, 0, 1, "WriteFault { stored: 0 } | ");
}

// The number of a status, and what standard error gets.
fn check_status(
    rt: &impl Abort,
    alloc: Global,
    words: &[String],
    status: Status,
    number: u8,
    text: &str,
) {
    assert!(rt; status.number() == number);
    let mut errors = MemorySink::new(alloc, Vec::new(alloc), 100).expect(rt, "memory");
    if let Some(message) = Message::of(&status, words) {
        message.put(&mut errors).expect(rt, "a write");
    }
    assert!(rt; errors.bytes() == text.as_bytes());
}

#[test]
fn statuses(rt: HostRuntime) {
    let alloc = rt.alloc();
    let words = words_of(&rt, alloc, "rename A.java 41 b");
    let words = words.as_slice();
    check_status(&rt, alloc, words, Status::Done, 0, "");
    check_status(&rt, alloc, words, Status::Refused, 1, "");
    check_status(&rt, alloc, words, Status::Usage, 2, "jref: usage\n");
    let status = Status::ReadFault { word: 1 };
    check_status(&rt, alloc, words, status, 3, "jref: cannot read A.java\n");
    let status = Status::WriteFault { stored: 0 };
    let text = "jref: write fault after 0 files\n";
    check_status(&rt, alloc, words, status, 4, text);
    let status = Status::WriteFault {
        stored: 4_294_967_295,
    };
    let text = "jref: write fault after 4294967295 files\n";
    check_status(&rt, alloc, words, status, 4, text);
    let status = Status::BadScript(ScriptFault::NotAList);
    check_status(&rt, alloc, words, status, 5, "jref: bad script\n");
    let status = Status::BadSource {
        word: 1,
        fault: SourceFault::TooLong,
    };
    check_status(&rt, alloc, words, status, 6, "jref: bad source A.java\n");
    check_status(&rt, alloc, words, Status::NoMemory, 7, "jref: no memory\n");
}

// That a text would be too long is told before a rule that it would break.
#[test]
fn lengths_before_rules(rt: HostRuntime) {
    let alloc = rt.alloc();
    let text = "class A{static void mm(){}}class B extends A{void n(){}}";
    let line = "rename A.java 50 mm";
    let expected = "Refused | refused 20 TooLong 1048577\n";
    assert_filled(&rt, alloc, text, 1_048_576, line, expected);
    let expected = "Refused | refused 17 WouldNotCompile A.java:50 Override\n";
    assert_filled(&rt, alloc, text, 1_048_575, line, expected);
}
