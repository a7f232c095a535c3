//! Steps over the deepest texts of each kind that the limits allow: each has to do with the stack
//! that a program is given.
use crate::dependences::tell_dependences;
use crate::locals::run_extract;
use crate::memory::{put, put_times, text_of};
use crate::rows::{assert_same, cut_at, number};
use crate::runs::run_over;
use crate::shows::tell_show;
use std::alloc::Global;
use std::process::Abort;

/// A member in front of what nests, and behind it. No name is a part of another word.
const FRONT: &str = "class C{boolean F;C M(C P){boolean L=F;";

const BACK: &str = "M(P).F=L;return P;}}";

/// What stands behind it where the last L is extracted.
const EXTRACTED: &str = "boolean D = L; M(P).F=D;return P;}}";

/// How what nests is made: how often its front and its back stand, the pieces of a front, the
/// middle, and the pieces of a back; a piece has the number of times that it stands. At most 100
/// brackets are open, 300 tokens stand behind the last of `;`, `{` and `}`, and 500 are `else`.
const NESTS: &'static str = "
~98@75*if(L)|1*{@L=F;@1*}
~98@75*while(L)|1*{@L=F;@1*}
~98@74*if(L)|1*synchronized(P)|1*{@L=F;@1*}
~10@50*if(L)|1*{@L=F;@1*}|50*else;
~98@5*if(L)|1*{@L=F;@1*}|5*else;
~500@1*if(L);else @L=F;@
~98@5*if(L);else |74*while(L)|1*{@L=F;@1*}
~1@1*L=|98*(@L@98*)|1*;
~1@1*P=|99*(C)@P@1*;
~1@1*P=|98*M(@P@98*)|1*;
~1@1*P=P|59*.M(P)@@1*;
~1@1*L=|297*!@L@1*;
~1@149*L=@L@1*;
~1@1*L=L|148*&&L@@1*;
";

/// Nests of which dependences are shown. Of those whose other parts have no sites: whether each way
/// meets the middle's write of L (`met`) or may leave it out (`skipped`). Of the others: how many
/// sites the method has, which are too many.
const WITH_SITES: &'static str = "
~98@75*if(true)|1*{@L=F;@1*} => skipped
~10@50*if(true)|1*{@L=F;@1*}|50*else; => skipped
~98@5*if(true)|1*{@L=F;@1*}|5*else; => skipped
~500@1*if(true);else @L=F;@ => skipped
~1@1*L=F==|97*(@true@97*)|1*; => met
~1@1*L=F==(|97*(C)@null==null@1*); => met
~1@1*L=F==|295*!@true@1*; => met
~1@1*L=F|148*&&true@@1*; => met
~98@75*if(L)|1*{@L=F;@1*} => 7360
~98@75*while(true)|1*{@L=F;@1*} => 7360
~98@74*if(L)|1*synchronized(P)|1*{@L=F;@1*} => 7654
~98@5*if(true);else |74*while(true)|1*{@L=F;@1*} => 7262
~11@1*P=|98*M(|1*P|98*)|1*;@@ => 1108
~6@1*P=P|59*.M(P)|1*;@@ => 1082
~7@149*L=|1*L;@@ => 1058
";

pub(crate) fn put_pieces(rt: &impl Abort, text: &mut String, pieces: &str) {
    for piece in pieces.split('|') {
        let (times, piece) = cut_at(piece, "*");
        put_times(rt, text, piece, number(rt, times) as usize);
    }
}

fn put_often(rt: &impl Abort, text: &mut String, pieces: &str, count: u32) {
    for _ in 0..count {
        put_pieces(rt, text, pieces);
    }
}

/// The text of a row, in which this stands behind what nests.
fn nested_before(rt: &impl Abort, alloc: Global, row: &str, end: &str) -> String {
    let (count, row) = cut_at(row, "@");
    let count = number(rt, count);
    let (front, row) = cut_at(row, "@");
    let (middle, back) = cut_at(row, "@");
    let mut text = text_of(rt, alloc, FRONT);
    put_often(rt, &mut text, front, count);
    put(rt, &mut text, middle);
    if back != "" {
        put_often(rt, &mut text, back, count);
    }
    put(rt, &mut text, end);
    text
}

fn nested(rt: &impl Abort, alloc: Global, row: &str) -> String {
    nested_before(rt, alloc, row, BACK)
}

/// What a name is bound to.
fn declared(name: char) -> &'static str {
    match name {
        'C' => "C",
        'F' => "C.F",
        'M' => "C.M(C)",
        'P' => "C.M(C)#0",
        'L' => "C.M(C)#1",
        _ => "",
    }
}

/// The lines of a show: one for each name but where the front declares it.
fn lines(rt: &impl Abort, alloc: Global, text: &str) -> String {
    let mut lines = String::new(alloc);
    for (at, name) in text.char_indices() {
        let of = declared(name);
        let declares = matches!(at, 6 | 16 | 20 | 24 | 35);
        if of != "" && !declares {
            write!(lines, "{at} {name} {of};").expect(rt, "memory");
        }
    }
    lines
}

/// A rename to a name that stands nowhere: each that is bound to what is renamed gets it.
fn assert_renamed(rt: &impl Abort, alloc: Global, text: &str, line: &str, old: &str, new: &str) {
    let mut expected = text_of(rt, alloc, "Done | ");
    let renamed = text.replace(alloc, old, new).expect(rt, "memory");
    put(rt, &mut expected, renamed.as_str());
    let told = run_over(rt, alloc, text.as_bytes(), line);
    assert_same(rt, told.as_str(), expected.as_str());
}

/// The last L becomes a local of its own, in front of its statement.
fn assert_extracted(rt: &impl Abort, alloc: Global, text: &str, row: &str) {
    let (_, from) = last_two(text, 'L');
    let (to, _) = last_two(text, ';');
    let mut asked = String::new(alloc);
    write!(asked, "0 {from} {to} D@{text}").expect(rt, "memory");
    let told = run_extract(rt, alloc, asked.as_str());
    let report = "Done | [{\"files\":[\"A.java\"],\"reply\":\"refactored\",\"respelled\":0}] | ";
    let mut expected = text_of(rt, alloc, report);
    put(
        rt,
        &mut expected,
        nested_before(rt, alloc, row, EXTRACTED).as_str(),
    );
    assert_same(rt, told.as_str(), expected.as_str());
}

fn assert_nested(rt: &impl Abort, alloc: Global, row: &str) {
    let text = nested(rt, alloc, row);
    let text = text.as_str();
    let shown = tell_show(rt, alloc, text, "", "A.java");
    assert_same(rt, shown.as_str(), lines(rt, alloc, text).as_str());
    assert_renamed(rt, alloc, text, "rename A.java 6 D", "C", "D");
    assert_renamed(rt, alloc, text, "rename A.java 16 D", "F", "D");
    assert_renamed(rt, alloc, text, "rename A.java 20 D", "M", "D");
    assert_renamed(rt, alloc, text, "rename A.java 35 D", "L", "D");
    assert_extracted(rt, alloc, text, row);
}

/// The last two places at which a name stands.
fn last_two(text: &str, name: char) -> (usize, usize) {
    let mut two = (0, 0);
    for (at, other) in text.char_indices() {
        if other == name {
            two = (two.1, at);
        }
    }
    two
}

/// A dependence of the method's sites at two bytes.
fn put_line(rt: &impl Abort, text: &mut String, kind: &str, first: usize, second: usize) {
    write!(text, ";C.M(C) {kind} {first} {second}").expect(rt, "memory");
}

/// The dependences of a nest whose parts have no sites: of the front's load of F and write of L, at
/// 37 and 35, of the middle's, and of the back's call, read of L, check and store of F.
fn dependences(rt: &impl Abort, alloc: Global, text: &str, is_met: bool) -> String {
    let (write, read) = last_two(text, 'L');
    let (load, store) = last_two(text, 'F');
    let (_, call) = last_two(text, 'M');
    let mut lines = String::new(alloc);
    put_line(rt, &mut lines, "Order", 37, call);
    put_line(rt, &mut lines, "Order", 37, store);
    put_line(rt, &mut lines, "Field", 37, store);
    put_line(rt, &mut lines, "Output", 35, write);
    if !is_met {
        put_line(rt, &mut lines, "Flow", 35, read);
    }
    put_line(rt, &mut lines, "Order", load, call);
    put_line(rt, &mut lines, "Order", load, store);
    put_line(rt, &mut lines, "Field", load, store);
    put_line(rt, &mut lines, "Flow", write, read);
    put_line(rt, &mut lines, "Order", call, store);
    put_line(rt, &mut lines, "Order", call, store);
    put_line(rt, &mut lines, "Order", store, store);
    lines
}

/// What a show of the dependences is to tell, with `;` in front of each line.
fn expected_of(rt: &impl Abort, alloc: Global, text: &str, expected: &str) -> String {
    match expected {
        "met" => dependences(rt, alloc, text, true),
        "skipped" => dependences(rt, alloc, text, false),
        count => {
            let mut refusal = text_of(rt, alloc, ";24 TooManySites C.M(C) ");
            put(rt, &mut refusal, count);
            refusal
        }
    }
}

fn assert_dependences(rt: &impl Abort, alloc: Global, nest: &str, expected: &str) {
    let text = nested(rt, alloc, nest);
    let expected = expected_of(rt, alloc, text.as_str(), expected);
    let mut told = text_of(rt, alloc, ";");
    let shown = tell_dependences(rt, alloc, text.as_str(), "");
    put(rt, &mut told, shown.as_str());
    assert_same(rt, told.as_str(), expected.as_str());
}

fn assert_all(rt: &impl Abort, alloc: Global, rows: &str, count: u32) {
    let mut seen = 0u32;
    for row in rows.split('~') {
        if let Some(row) = row.strip_suffix("\n") {
            if row != "" {
                let (nest, expected) = cut_at(row, " => ");
                if expected == "" {
                    assert_nested(rt, alloc, nest);
                } else {
                    assert_dependences(rt, alloc, nest, expected);
                }
                seen = seen.wrapping_add(1);
            }
        }
    }
    assert!(rt; seen == count);
}

#[test]
fn deepest_texts(rt: HostRuntime) {
    assert_all(&rt, rt.alloc(), NESTS, 14);
    assert_all(&rt, rt.alloc(), WITH_SITES, 15);
}
