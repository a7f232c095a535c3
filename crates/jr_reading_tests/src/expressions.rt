//! What texts are read as: trees, places and stops by the grammar, and by javac where it takes the
//! whole text.
use crate::reading::{items_of, put_times, text_of};
use crate::rows::{cut_at, number};
use crate::shown::show_expr;
use jr_ast::Expr;
use jr_pexpr::{ParseFault, parse_expr, parse_sexpr};
use jr_text::Span;
use std::alloc::Global;
use std::process::Abort;

pub(crate) const ROWS: &'static str = "
~# Expressions: the item that reading begins at, a text, and the answer: the tree, the item behind
~# it and the stop, or a byte.
~expression 0 a => a 1 1
~expression 0 a+b*c => [a + [b * c]] 5 5
~expression 0 a*b+c => [[a * b] + c] 5 5
~expression 0 a-b-c => [[a - b] - c] 5 5
~expression 0 a/b%c => [[a / b] % c] 5 5
~expression 0 a<b==c>=d => [[a < b] == [c >= d]] 7 7
~expression 0 a||b&&c!=d => [a || [b && [c != d]]] 7 7
~expression 0 a=b=c => [a = [b = c]] 5 5
~expression 0 a+=b*=c => [a += [b *= c]] 5 5
~expression 0 a=b+c => [a = [b + c]] 5 5
~expression 0 a+b=c => [a + b] 3 3
~expression 0 -2147483648 => [- 2147483648] 2 2
~expression 0 - -2147483648 => [- [- 2147483648]] 4 4
~expression 0 -(2147483648) => at 2
~expression 0 a-2147483648 => a 1 2
~expression 0 2147483648 => at 0
~expression 0 2147483647 => 2147483647 1 1
~expression 0 (a)-b => [(a) - b] 5 5
~expression 0 (a)!b => [cast a [! b]] 5 5
~expression 0 (A)(b) => [cast A (b)] 6 6
~expression 0 (a.b)c => [cast a.b c] 6 6
~expression 0 (a.b.c)d => (a.b.c) 7 7
~expression 0 (A)(B)c*d => [[cast A [cast B c]] * d] 9 9
~expression 0 (A)b++ => [cast A [b ++]] 5 5
~expression 0 (A)++b => (A) 3 3
~expression 0 (A)2147483648 => (A) 3 3
~expression 0 ((a))=1 => ((a)) 5 5
~expression 0 a+++b => [[a ++] + b] 4 4
~expression 0 a+ ++b => [a + [++ b]] 5 5
~expression 0 ++a++ => [++ a] 2 2
~expression 0 ++f() => [++ f] 2 4
~expression 0 -a.b-- => [- [a.b --]] 5 5
~expression 0 !a&&b => [[! a] && b] 4 4
~expression 0 +a => [+ a] 2 2
~expression 0 new A.B(1,2).f => new A.B(1, 2).f 12 12
~expression 0 new A.B.C() => at 7
~expression 0 new int() => at 4
~expression 0 new A => at 5
~expression 0 new => at 3
~expression 0 super.m() => super.m() 5 5
~expression 0 super.x=this => [super.x = this] 5 5
~expression 0 super. => at 6
~expression 0 super => at 5
~expression 0 a.b.class => a.b.class 5 5
~expression 0 a.b.c.class => a.b.c 5 6
~expression 0 a.b(c).d(e,f) => a.b(c).d(e, f) 13 13
~expression 0 f(a)(b) => f(a) 4 4
~expression 0 f()=a => f() 3 3
~expression 0 \"x\\\"y\"+null => [\"x\\\"y\" + null] 3 3
~expression 0 true==false => [true == false] 3 3
~expression 0 a. => a 1 2
~expression 0 f( => f 1 2
~expression 0 f(a, => f 1 4
~expression 0 f(a,) => f 1 4
~expression 0 f(,a) => f 1 2
~expression 0 a+b* => [a + b] 3 4
~expression 0 a b => a 1 2
~expression 0 a?b => a 1 1
~expression 0 (a => at 2
~expression 0 ) => at 0
~expression 0 int => at 0
~expression 0  => at 0
~expression 0  //c => at 4
~expression 0 /*c*/ a => a 3 3
~expression 0 a+b //c => [a + b] 3 5
~expression 0 a /*c*/ ; => a 1 4
~expression 1 x ; a => at 2
~expression 3 x ; a => a 5 5
~expression 5 x ; a => at 5
~expression 1 a/*c*/b => b 3 3
~# Statement expressions.
~statement 0 f() => f() 3 3
~statement 0 a.f(b) ; => a.f(b) 6 7
~statement 0 a=b+c => [a = [b + c]] 5 5
~statement 0 a.b-=c; => [a.b -= c] 5 5
~statement 0 a++ => [a ++] 2 2
~statement 0 --a => [-- a] 2 2
~statement 0 ++a+b => [++ a] 2 2
~statement 0 new A() => new A() 5 5
~statement 0 super.m() => super.m() 5 5
~statement 0 f().g => f() 3 5
~statement 0 f()+1 => f() 3 3
~statement 0 (a).f() => (a).f() 7 7
~statement 0 a => at 1
~statement 0 a+b => at 1
~statement 0 a.b => at 3
~statement 0 (a) => at 3
~statement 0 (A)b => at 3
~statement 0 -a => at 0
~statement 0 !a => at 0
~statement 0 1 => at 1
~statement 0  => at 0
~# Expressions, with each mark behind what has it.
~places 0 f(a+b, -c) => f@0-1([a@2-3@2-3 + b@4-5@4-5]@2-5, [- c@8-9@8-9]@7-9)@0-10 10 10
~places 0  ( a . b ) c => [cast a@3-4.b@7-8@3-8 c@11-12@11-12]@1-12 12 12
~places 0 new A.B(1) .f => new A@4-5.B@6-7@4-7(1@8-9)@0-10.f@12-13@0-13 11 11
~places 0 super.m() + x.y++ => \
    [super.m@6-7()@0-9 + [x@12-13@12-13.y@14-15@12-15 ++]@12-17]@0-17 12 12
~places 0 a.b.class==null => [a@0-1.b@2-3@0-3.class@0-9 == null@11-15]@0-15 7 7
~places 0 ( x=\"s\" ).y => ([x@2-3@2-3 = \"s\"@4-7]@2-7)@0-9.y@10-11@0-11 9 9
~# How many times what stands before and behind `a`, and the items that this makes, all of which
~# are read: trees as deep as the limits let them be.
~whole 100 (_) => 201 201
~whole 99 f(_) => 298 298
~whole 299 !_ => 300 300
~whole 149 a=_ => 299 299
~whole 149 _+a => 299 299
~whole 149 _.a => 299 299
";

/// The tree, the item behind it and the stop; or the byte of the fault.
fn tell_tree(
    rt: &impl Abort,
    alloc: Global,
    answer: Result<(Expr<Span>, u32, u32), ParseFault>,
    places: bool,
) -> String {
    match answer {
        Ok((tree, behind, stop)) => {
            let tree = show_expr(rt, alloc, &tree, places);
            format!(in alloc; "{tree} {behind} {stop}").expect(rt, "memory")
        }
        Err(ParseFault::Syntax { at }) => format!(in alloc; "at {at}").expect(rt, "memory"),
        Err(ParseFault::Memory) => String::new(alloc),
    }
}

/// What is read of a text from an item on.
pub(crate) fn read_expression(rt: &impl Abort, alloc: Global, kind: &str, asked: &str) -> String {
    let (from, source) = cut_at(asked, " ");
    let from = number(rt, from);
    let text = text_of(rt, alloc, source);
    let items = items_of(rt, alloc, &text);
    assert!(rt; from as usize <= items.len());
    match kind {
        "statement" => tell_tree(rt, alloc, parse_sexpr(alloc, &text, &items, from), false),
        "expression" => tell_tree(rt, alloc, parse_expr(alloc, &text, &items, from), false),
        _ => tell_tree(rt, alloc, parse_expr(alloc, &text, &items, from), true),
    }
}

/// The item behind what is read of such a text, and the stop.
pub(crate) fn read_whole(rt: &impl Abort, alloc: Global, asked: &str) -> String {
    let (times, around) = cut_at(asked, " ");
    let (before, behind) = around.split_once("_").expect(rt, "a place");
    let times = number(rt, times);
    let mut text = String::new(alloc);
    put_times(rt, &mut text, before, times);
    put_times(rt, &mut text, "a", 1);
    put_times(rt, &mut text, behind, times);
    let text = text_of(rt, alloc, text.as_str());
    let items = items_of(rt, alloc, &text);
    let (_tree, end, stop) = parse_expr(alloc, &text, &items, 0).expect(rt, "an expression");
    format!(in alloc; "{end} {stop}").expect(rt, "memory")
}
