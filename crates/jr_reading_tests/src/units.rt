//! What texts are read as: units by the grammar and by javac, shown as they are printed, and places
//! of faults. What is printed is read again. Each expected text is that of the layout in
//! docs/DEFINITIONS.md.
use crate::reading::{items_of, put_times, text_of};
use crate::rows::assert_same;
use jr_ast::{Class, Member, Path, Unit};
use jr_paths::PathReads;
use jr_pexpr::{ParseFault, parse_expr};
use jr_print::{expr_text, member_text};
use jr_punit::parse_unit;
use jr_text::Span;
use std::alloc::Global;
use std::process::Abort;

pub(crate) const ROWS: &'static str = "
~# A source of an expression, and what it is printed as.
~printed -(-a)+1 => -(-a) + 1
~printed - -a => - -a
~printed +/* not a bump */+a => + +a
~printed -  --a => - --a
~printed a- -1 => a - -1
~printed a+++ ++b => a++ + ++b
~printed ! !a => !!a
~printed (K)!a => (K) !a
~printed ( A . K )b => (A.K) b
~printed a . b.class => a.b.class
~printed super. m(1,a ) => super.m(1, a)
~printed super.x=this => super.x = this
~printed new O.K(1,2).f => new O.K(1, 2).f
~printed f ( ) => f()
~printed a.b( c ).d(e,f) => a.b(c).d(e, f)
~printed 1 .x => 1 .x
~printed \"a\\n\"+null => \"a\\n\" + null
~printed -2147483648 => -2147483648
~printed a=b+=c%2 => a = b += c % 2
~printed a<=b&&true!=c||d => a <= b && true != c || d
~printed ((a)) => ((a))
~printed -a.b-- => -a.b--
~# A source of a unit, and what its classes are printed as, with the unit's mark and how many words
~# its package has in front.
~unit  => 0-0 0:
~unit  /*c*/  => 0-7 0:
~unit package a . b ; => 0-15 2:
~unit package a;class A{}class B extends A{} => 0-38 1: class A { } class B extends A { }
~unit public final class A{int f;} => 0-28 0: public final class A { int f; }
~unit class A{private static final int f=1;boolean g=true;O.K h;} => \
    0-59 0: class A { private static final int f = 1; boolean g = true; O.K h; }
~unit class A{int m(int a){return -(-a)+1;}} => \
    0-38 0: class A { int m(int a) { return -(-a) + 1; } }
~unit class A{synchronized void m(final B a,int b){}} => \
    0-47 0: class A { synchronized void m(final B a, int b) { } }
~unit class A{A(){}A(int a){super(a);}} => 0-33 0: class A { A() { } A(int a) { super(a); } }
~unit class A{A(){super();a=1;}} => 0-26 0: class A { A() { super(); a = 1; } }
~unit class A{A(){super.m();}} => 0-24 0: class A { A() { super.m(); } }
~unit class A{A(){this.a=1;;}} => 0-24 0: class A { A() { this.a = 1; ; } }
~unit class A{A m(){return null;}} => 0-28 0: class A { A m() { return null; } }
~unit class A{A a;A(){}} => 0-18 0: class A { A a; A() { } }
~unit class A{static class K extends B.C{K(){super(1,a);}int f;}int g;} => \
    0-65 0: class A { static class K extends B.C { K() { super(1, a); } int f; } int g; }
~unit class A{void m(){if(a)if(b)c=1;else d=2;else{}}} => \
    0-48 0: class A { void m() { if (a) if (b) c = 1; else d = 2; else { } } }
~unit class A{void m(){if(a)while(b)if(c);else;}} => \
    0-43 0: class A { void m() { if (a) while (b) if (c) ; else ; } }
~unit class A{void m(){while(true);synchronized(a){f();}return;}} => \
    0-59 0: class A { void m() { while (true) ; synchronized (a) { f(); } return; } }
~unit class A{void m(){int a=1;final B b=c;B.C d=(B.C)e;}} => \
    0-52 0: class A { void m() { int a = 1; final B b = c; B.C d = (B.C) e; } }
~unit class A{void m(){a.b();a=b;a++;--a;new A();}} => \
    0-45 0: class A { void m() { a.b(); a = b; a++; --a; new A(); } }
~unit class A{void m(){{int a=1;}{}}} => 0-31 0: class A { void m() { { int a = 1; } { } } }
~unit class A{String s=\"x\\ty\";} => 0-25 0: class A { String s = \"x\\ty\"; }
~unit class A{int f=-2147483648;} => 0-27 0: class A { int f = -2147483648; }
~unit class A{class A{}} => 0-18 0: class A { class A { } }
~# A text that is no unit, and the byte where reading stops.
~unit class A{int f=1 2;} => at 16
~unit class => at 5
~unit class A => at 7
~unit class A{ => at 8
~unit class A{}} => at 9
~unit class A{}; => at 9
~unit class A extends int{} => at 16
~unit class A extends B.C.D{} => at 19
~unit package a => at 9
~unit package a.; => at 10
~unit package; => at 7
~unit package a;package b; => at 10
~unit class A{}package a; => at 9
~unit int f; => at 0
~unit class A{void f;} => at 14
~unit class A{int m(){} int} => at 21
~unit class A{B(){}} => at 9
~unit class A{A(int a,){}} => at 16
~unit class A{A(static int a){}} => at 10
~unit class A{A(){a();super();}} => at 21
~unit class A{A(){super();super();}} => at 25
~unit class A{A(){super(a,);}} => at 20
~unit class A{void m(){super();}} => at 22
~unit class A{class B{class C{}}} => at 16
~unit class A{void m(){else;}} => at 17
~unit class A{void m(){if(a);else;else;}} => at 28
~unit class A{void m(){if(a)int b=1;}} => at 22
~unit class A{void m(){if(a)B b=1;}} => at 24
~unit class A{void m(){while(a)final int b=1;}} => at 25
~unit class A{void m(){int a;}} => at 22
~unit class A{void m(){a;}} => at 18
~unit class A{void m(){a+b;}} => at 18
~unit class A{void m(){synchronized(a);}} => at 32
~unit class A{void m(){return a b;}} => at 26
~unit class A{public} => at 14
~unit class A{int f=;} => at 14
";

/// The text of the expression that the whole text is.
fn print_unit(rt: &impl Abort, alloc: Global, source: &str) -> String {
    let text = text_of(rt, alloc, source);
    let items = items_of(rt, alloc, &text);
    let (tree, behind, _stop) = parse_expr(alloc, &text, &items, 0).expect(rt, "an expression");
    assert!(rt; behind as usize == items.len());
    expr_text(alloc, &tree).expect(rt, "memory")
}

/// The same, which is what its own text is printed as.
pub(crate) fn printed_twice(rt: &impl Abort, alloc: Global, source: &str) -> String {
    let once = print_unit(rt, alloc, source);
    let twice = print_unit(rt, alloc, once.as_str());
    assert_same(rt, twice.as_str(), once.as_str());
    once
}

fn class_text<A: Drop>(rt: &impl Abort, alloc: Global, mark: A, class: Class<A>) -> String {
    member_text(alloc, &Member::inner(mark, class)).expect(rt, "memory")
}

/// The unit's mark, how many words its package has, and its classes.
fn unit_text(rt: &impl Abort, alloc: Global, unit: Unit<Span>) -> String {
    let mark = unit.mark;
    let words = unit.package.len();
    let (from, to) = (mark.from, mark.to);
    let mut text = format!(in alloc; "{from}-{to} {words}:").expect(rt, "memory");
    for class in unit.classes {
        let class = class_text(rt, alloc, mark, class);
        put_times(rt, &mut text, " ", 1);
        put_times(rt, &mut text, class.as_str(), 1);
    }
    text
}

/// The unit that the text is, or the byte where reading stops.
fn read(rt: &impl Abort, alloc: Global, source: &str) -> String {
    let text = text_of(rt, alloc, source);
    let items = items_of(rt, alloc, &text);
    match parse_unit(alloc, &text, &items) {
        Ok(unit) => unit_text(rt, alloc, unit),
        Err(ParseFault::Syntax { at }) => format!(in alloc; "at {at}").expect(rt, "memory"),
        Err(ParseFault::Memory) => String::new(alloc),
    }
}

/// The same, where its classes are read again as they are printed.
pub(crate) fn read_twice(rt: &impl Abort, alloc: Global, source: &str) -> String {
    let once = read(rt, alloc, source);
    if let Some((_, classes)) = once.as_str().split_once(": ") {
        let again = read(rt, alloc, classes);
        assert!(rt; again.as_str().ends_with(classes), "{classes:?}");
    }
    once
}

/// The deepest statements of a text within the limits: blocks in blocks with `if` before each, and
/// a chain of `else` inside.
fn deep(rt: &impl Abort, alloc: Global) -> String {
    let mut text = String::new(alloc);
    put_times(rt, &mut text, "class A{void m(){", 1);
    for _ in 0..97 {
        put_times(rt, &mut text, "if(a)", 74);
        put_times(rt, &mut text, "{", 1);
    }
    put_times(rt, &mut text, "if(a);else ", 500);
    put_times(rt, &mut text, ";", 1);
    put_times(rt, &mut text, "}", 99);
    text
}

fn put_steps(rt: &impl Abort, steps: &mut Vec<u32>, step: u32, times: u32) {
    for _ in 0..times {
        steps.push(step).expect(rt, "memory");
    }
}

/// To the statement inside all of them: what is behind a condition, the first of a block, what is
/// behind `else`.
fn path_inside(rt: &impl Abort, alloc: Global) -> Path {
    let mut steps = [0, 1, 1].to_vec(alloc).expect(rt, "memory");
    for _ in 0..97 {
        put_steps(rt, &mut steps, 1, 74);
        put_steps(rt, &mut steps, 0, 1);
    }
    put_steps(rt, &mut steps, 2, 500);
    Path { steps }
}

/// Where that statement stands, of a unit that the text is.
fn place_inside(rt: &impl Abort, alloc: Global, source: &str) -> Option<Span> {
    let text = text_of(rt, alloc, source);
    let items = items_of(rt, alloc, &text);
    let unit = parse_unit(alloc, &text, &items).expect(rt, "a unit");
    let path = path_inside(rt, alloc);
    match unit.stmt_at(&path) {
        None => None,
        Some(stmt) => Some(stmt.mark),
    }
}

/// It is read, walked and dropped on the stack that a program has. Inside all stands `;`: behind 17
/// bytes, 97 times 74 `if(a)` and a brace, and 500 times 11 bytes.
#[test]
fn the_deepest_unit_is_read(rt: HostRuntime) {
    let text = deep(&rt, rt.alloc());
    let place = place_inside(&rt, rt.alloc(), text.as_str());
    let (from, to) = (41504, 41505);
    assert!(rt; place == Some(Span { from, to }));
}
