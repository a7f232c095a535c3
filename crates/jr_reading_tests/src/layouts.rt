//! Where bytes go: what comes between something put in and what stands beside it.
use crate::reading::text_of;
use crate::rows::{cut_at, number};
use jr_layout::{class_end, gap_at};
use std::alloc::Global;
use std::process::Abort;

/// Texts with a byte, and what comes between a statement put there and what stands there; with a
/// member, what is put in front of the brace that stands there. The answers stand in brackets.
pub(crate) const ROWS: &'static str = "
~gap {int a=1;return a;}@9 => [ ]
~gap {return a;}@1 => [ ]
~# First on its line: a line end and the indent.
~gap {\n \t return a;}@5 => [\n \t ]
~gap {\nreturn a;}@2 => [\n]
~gap return a;@0 => [\n]
~gap  \treturn a;@2 => [\n \t]
~# Behind a comment, a form feed or a word it isn't first.
~gap {\n  /**/return a;}@8 => [ ]
~gap {\n  \x0Creturn a;}@5 => [ ]
~gap {\n  λ;return a;}@7 => [ ]
~# The line end is the first of the file, in a comment too.
~gap {\r\n  f();\n  g();}@12 => [\r\n  ]
~gap {\n  f();\r\n\tg();}@11 => [\n\t]
~gap /*\r*/{\n  f();\n}@9 => [\r  ]
~gap {\r  f();\r\tg();}@10 => [\r\t]
~end class D{}@8 static void m(){} => [ static void m(){} ]
~end class D{int f; }@15 int g; => [ int g; ]
~end class D {\n    int f;\n}@21 int g; => [    int g;\n]
~end class D{\r\n  }\r\n@12 int g; => [    int g;\r\n  ]
~end class D{\n  /**/}@15 int g; => [ int g; ]
";

/// What comes between a statement that is put at a byte and what stands there.
pub(crate) fn gap(rt: &impl Abort, alloc: Global, asked: &str) -> String {
    let (text, at) = cut_at(asked, "@");
    let text = text_of(rt, alloc, text);
    let at = number(rt, at);
    let mut told = String::new(alloc);
    if at <= text.len() {
        let gap = gap_at(alloc, &text, at).expect(rt, "memory");
        write!(&mut told, "[{gap}]").expect(rt, "memory");
    }
    told
}

/// What is put in front of the brace that stands at a byte, where a member comes there.
pub(crate) fn end_of_class(rt: &impl Abort, alloc: Global, asked: &str) -> String {
    let (text, rest) = cut_at(asked, "@");
    let (at, member) = cut_at(rest, " ");
    let text = text_of(rt, alloc, text);
    let at = number(rt, at);
    let mut told = String::new(alloc);
    if at <= text.len() {
        let put = class_end(alloc, &text, at, member).expect(rt, "memory");
        write!(&mut told, "[{put}]").expect(rt, "memory");
    }
    told
}
