//! Shows of bindings: lines, faults, and the length of what is shown.
ghost use Rattle.std.specs.Prelude.{◌≡◌, ◌<◌, length};
ghost use Rattle.jr_session.specs.Serving.{IsServed};

use crate::memory::{put, put_times};
use crate::rows::{assert_same, cut_at};
use jr_ast::Name;
use jr_names::{Lines, Refusal, Reply, Step, What};
use jr_session::Session;
use jr_steps::Steps;
use jr_text::Text;
use std::alloc::Global;
use std::marker::Brand;
use std::process::Abort;
use std::sync::ledger::{Blank, Ledger};

pub(crate) fn text_of(rt: &impl Abort, alloc: Global, text: &str) -> Text {
    Text::new(alloc, text.as_bytes()).expect(rt, "a text")
}

pub(crate) fn name_of(rt: &impl Abort, alloc: Global, name: &str) -> Name {
    Name::new(alloc, name).expect(rt, "memory")
}

// Two files.
pub(crate) fn files(
    rt: &impl Abort,
    alloc: Global,
    first: (&str, Text),
    second: (&str, Text),
) -> Vec<(String, Text)>
    ensures { length result.items ≡ 2 }
{
    let mut files = Vec::new(alloc);
    let name = String::from_str(alloc, first.0).expect(rt, "memory");
    files.push((name, first.1)).expect(rt, "memory");
    let name = String::from_str(alloc, second.0).expect(rt, "memory");
    files.push((name, second.1)).expect(rt, "memory");
    files
}

pub(crate) fn show(rt: &impl Abort, alloc: Global, name: &str) -> Step
    ensures { IsServed result }
{
    let file = name_of(rt, alloc, name);
    Step::Show {
        file,
        what: What::Bindings,
    }
}

// The lines with `;` behind each, or why there are none.
fn put_told(rt: &impl Abort, text: &mut String, reply: &Reply) {
    match reply {
        Reply::Shown(lines) => put_lines(rt, text, lines),
        Reply::Refused(refusal) => put_refusal(rt, text, refusal),
        _ => put(rt, text, "another reply"),
    }
}

fn put_lines(rt: &impl Abort, text: &mut String, lines: &Lines) {
    for line in lines.as_slice() {
        put(rt, text, line.as_str());
        put(rt, text, ";");
    }
}

fn put_refusal(rt: &impl Abort, text: &mut String, refusal: &Refusal) {
    match refusal {
        Refusal::SourceError { file, at, kind } => {
            let file = file.as_str();
            let kind = kind.as_str();
            write!(text, "{file} {at} {kind}").expect(rt, "memory");
        }
        Refusal::NoSuchFile { name } => {
            put(rt, text, "no ");
            put(rt, text, name.as_str());
        }
        Refusal::ReportFull { len } => write!(text, "full {len}").expect(rt, "memory"),
        _ => put(rt, text, refusal.name()),
    }
}

// What a step is answered, behind what earlier ones were.
pub(crate) fn put_step<L: Ledger>(
    rt: &impl Abort,
    alloc: Global,
    session: &mut Session,
    step: &Step,
    steps: &mut Steps<L>,
    text: &mut String,
)
    requires { IsServed step.now }
{
    let reply = session.step(alloc, step, steps).expect(rt, "memory");
    put_told(rt, text, &reply);
    put(rt, text, "|");
}

// What is shown of a file, twice before and once after an edit of another one, and once after that
// is undone.
fn around_an_edit<L: Ledger>(rt: &impl Abort, alloc: Global, blank: Blank) -> String
    requires name { blank.name ≡ L.name }
    requires parts { blank.parts ≡ L.parts }
    requires some { 0 < L.parts }
{
    let mut steps = Steps::<L>::new(blank);
    let first = text_of(rt, alloc, "class B{}");
    let second = "class O{static int x;static class C extends B{int m(){return x;}}}";
    let second = text_of(rt, alloc, second);
    let files = files(rt, alloc, ("P.java", first), ("Q.java", second));
    let mut session = Session::begin(alloc, files).expect(rt, "a session");
    let edit = Step::Edit {
        file: name_of(rt, alloc, "P.java"),
        from: 8,
        to: 8,
        text: name_of(rt, alloc, "int x;"),
    };
    let shown = show(rt, alloc, "Q.java");
    let mut text = String::new(alloc);
    put_step(rt, alloc, &mut session, &shown, &mut steps, &mut text);
    put_step(rt, alloc, &mut session, &shown, &mut steps, &mut text);
    put_step(rt, alloc, &mut session, &edit, &mut steps, &mut text);
    put_step(rt, alloc, &mut session, &shown, &mut steps, &mut text);
    put_step(rt, alloc, &mut session, &Step::Undo, &mut steps, &mut text);
    put_step(rt, alloc, &mut session, &shown, &mut steps, &mut text);
    text
}

#[test]
fn shows_around_an_edit(rt: HostRuntime) {
    let text = around_an_edit::<Brand>(&rt, rt.alloc(), Blank::new(1));
    assert_same(
        &rt,
        text.as_str(),
        "44 B B;61 x O.x;|44 B B;61 x O.x;|another reply|44 B B;61 x B.x;|another reply|\
         44 B B;61 x O.x;|",
    );
}

/// Texts of two files, A.java and B.java, and what a show of the first one tells.
pub(crate) const ROWS: &'static str = "
~show class A{}@class B{} =>\x20
~show @class B{B f;} =>\x20
~show class A{B f;B m(){return f;}}@class B{} => 8 B B;12 B B;25 f A.f;
~show class A{A(){super();}}@class B{} => 12 super Object.new();
~show class A extends B{A(){super(1);}}@class B{B(int a){}} => 16 B B;22 super B.new(int);
~show package p;class A{B f;}@package p;class B{} => 18 B B;
~show class A{static int f=-2147483648;}@class B{} =>\x20
~show class A{int f=y;}@class B{} => 14 error NoVariable;14 error TypeMismatch;
~show class A{int f=true;}@class B{} => 14 error TypeMismatch;
~show class A{static int f;int m(){return new A().f;}}@class B{} => \
    36 new A.new();40 A A;44 f A.f;44 error StaticThroughValue;
~show class A{void m(int a){synchronized(a){}}}@class B{} => \
    35 a A.m(int)#0;35 error TypeMismatch;
~show class A{int f=g;int g=1;}@class B{} => 14 g A.g;14 error Forward;
~# Of a text by itself: the first file that has one, and its first, one of lexemes before one of
~# syntax; and then of declarations.
~show class A{} #@class B{} => A.java 10 BadByte
~show class class A{} #@class B{} => A.java 16 BadByte
~show class A{}@class B{} /* => B.java 10 OpenComment
~show class A{} \"@class B{} /* => A.java 10 OpenString
~show class A{} \"\\q\"@class B{} => A.java 11 Escape
~show class A{int f=2147483649;}@class B{} => A.java 14 BadNumber
~show class A {@/* => A.java 9 Syntax
~show class A {@class B{} => A.java 9 Syntax
~show class A{} class@class B{} => A.java 15 Syntax
~show a 2147483648@class B{} => A.java 0 Syntax
~show class A{static int f=2147483648;}@class B{} => A.java 21 Syntax
~show class A{}class A{}@class B { => B.java 9 Syntax
~# Of declarations, each kind.
~show class A{}@package p;class B{} => B.java 0 PackageDiffers
~show class A{}@ /* a */ package p;class B{} => B.java 9 PackageDiffers
~show package p;class A{}@class B{} => B.java 0 PackageDiffers
~show class A{}class Thread{}@class B{} => A.java 15 PreludeName
~show class A{}@class B{}class A{} => B.java 15 TwiceClass
~show class A extends C{}@class B{} => A.java 16 NoSuperclass
~show class A extends B{}@class B extends A{} => A.java 6 Cycle
~show class A{C f;}@class B{} => A.java 8 NoTy
~show class A{int f;int f;}@class B{} => A.java 18 TwiceMember
~show class A{int f;static class f{}}@class B{} => A.java 27 MemberTypeName
~show class A{final volatile int f;}@class B{} => A.java 27 BadModifiers
~show class A{static int f=1+1;}@class B{} => A.java 21 StaticInit
~show class A{C f;}@class B{}class B{} => B.java 15 TwiceClass
";

// What a show of a file tells, where there are these two.
fn answer<L: Ledger>(
    rt: &impl Abort,
    alloc: Global,
    first: Text,
    second: Text,
    file: Name,
    blank: Blank,
) -> String
    requires name { blank.name ≡ L.name }
    requires parts { blank.parts ≡ L.parts }
    requires some { 0 < L.parts }
{
    let mut steps = Steps::<L>::new(blank);
    let files = files(rt, alloc, ("A.java", first), ("B.java", second));
    let mut session = Session::begin(alloc, files).expect(rt, "a session");
    let shown = Step::Show {
        file,
        what: What::Bindings,
    };
    let reply = session.step(alloc, &shown, &mut steps).expect(rt, "memory");
    let mut text = String::new(alloc);
    put_told(rt, &mut text, &reply);
    text
}

pub(crate) fn tell_show(
    rt: &impl Abort,
    alloc: Global,
    first: &str,
    second: &str,
    file: &str,
) -> String {
    let first = text_of(rt, alloc, first);
    let second = text_of(rt, alloc, second);
    let file = name_of(rt, alloc, file);
    answer::<Brand>(rt, alloc, first, second, file, Blank::new(1))
}

/// What a show of A.java tells, where `@` parts the texts of A.java and B.java.
pub(crate) fn show_all(rt: &impl Abort, alloc: Global, texts: &str) -> String {
    let (first, second) = cut_at(texts, "@");
    tell_show(rt, alloc, first, second, "A.java")
}

/// `class A{int f=` with so many parentheses around a number.
pub(crate) fn nest(rt: &impl Abort, alloc: Global, count: usize) -> String {
    let mut text = String::new(alloc);
    put(rt, &mut text, "class A{int f=");
    put_times(rt, &mut text, "(", count);
    put(rt, &mut text, "1");
    put_times(rt, &mut text, ")", count);
    put(rt, &mut text, ";}");
    text
}

// A file that isn't there is told before any fault of the sources. The brace is the first bracket
// that is open, so 99 more may be.
#[test]
fn missing_file_and_depths(rt: HostRuntime) {
    let alloc = rt.alloc();
    let missing = tell_show(&rt, alloc, "/*", "class B {", "C.java");
    assert_same(&rt, missing.as_str(), "no C.java");
    let within = nest(&rt, alloc, 99);
    let within = tell_show(&rt, alloc, within.as_str(), "class B{}", "A.java");
    assert_same(&rt, within.as_str(), "");
    let beyond = nest(&rt, alloc, 100);
    let first = tell_show(&rt, alloc, beyond.as_str(), "#", "A.java");
    assert_same(&rt, first.as_str(), "A.java 113 Deep");
    let second = tell_show(&rt, alloc, "class A{}class A{}", beyond.as_str(), "A.java");
    assert_same(&rt, second.as_str(), "B.java 113 Deep");
}

// A class of a long name with a field of its own type, whose only line has twice the name.
fn long(rt: &impl Abort, alloc: Global, count: usize) -> Text {
    let mut text = String::new(alloc);
    put(rt, &mut text, "class ");
    put_times(rt, &mut text, "a", count);
    put(rt, &mut text, "{");
    put_times(rt, &mut text, "a", count);
    put(rt, &mut text, " f;}");
    text_of(rt, alloc, text.as_str())
}

// What so many shows of it and one more come to, and a show of another file behind them.
fn shown_often<L: Ledger>(
    rt: &impl Abort,
    alloc: Global,
    times: u32,
    second: Text,
    blank: Blank,
) -> String
    requires name { blank.name ≡ L.name }
    requires parts { blank.parts ≡ L.parts }
    requires some { 0 < L.parts }
{
    let mut steps = Steps::<L>::new(blank);
    let files = files(
        rt,
        alloc,
        ("A.java", long(rt, alloc, 262_138)),
        ("B.java", second),
    );
    let mut session = Session::begin(alloc, files).expect(rt, "a session");
    let large = show(rt, alloc, "A.java");
    let small = show(rt, alloc, "B.java");
    for _ in 0..times {
        session.step(alloc, &large, &mut steps).expect(rt, "memory");
    }
    let mut text = String::new(alloc);
    put_step(rt, alloc, &mut session, &large, &mut steps, &mut text);
    put_step(rt, alloc, &mut session, &small, &mut steps, &mut text);
    text
}

fn assert_full(rt: &impl Abort, alloc: Global, second: &str, expected: &str) {
    let second = text_of(rt, alloc, second);
    let text = shown_often::<Brand>(rt, alloc, 16, second, Blank::new(1));
    assert_same(rt, text.as_str(), expected);
}

// A line of A.java has 6 + 1 + 262,138 + 1 + 262,138 bytes, which are 524,284, and sixteen of them
// leave 64: for a line of 2 + 1 + 30 + 1 + 30 bytes, but not for 2 + 1 + 29 + 1 + 2 + 1 + 29.
#[test]
fn a_report_is_full(rt: HostRuntime) {
    let alloc = rt.alloc();
    assert_full(
        &rt,
        alloc,
        "class aaaaaaaaaabbbbbbbbbbcccccccccc{aaaaaaaaaabbbbbbbbbbcccccccccc f;}",
        "full 8912828|37 aaaaaaaaaabbbbbbbbbbcccccccccc aaaaaaaaaabbbbbbbbbbcccccccccc;|",
    );
    assert_full(
        &rt,
        alloc,
        "class BB{int aaaaaaaaaabbbbbbbbbbccccccccc;\
         int m(){return aaaaaaaaaabbbbbbbbbbccccccccc;}}",
        "full 8912828|full 8388609|",
    );
}
