//! Tables of rows in one text, a row a line: `~`, what is asked, ` => ` and what is expected. A
//! line without ` => ` is a remark.
use crate::building::table_of;
use crate::builds::{self, field_types, superclasses};
use crate::depending::{self, cross, depend};
use crate::edits::{self, cut, edit};
use crate::expressions::{self, read_expression, read_whole};
use crate::flow::{self, reach, used};
use crate::graphs::{self, tell_count_of, tell_of_graph, tell_of_part};
use crate::grid::{self, moves_behind};
use crate::layouts::{self, end_of_class, gap};
use crate::lexing::{self, identify, lex_text, too_deep};
use crate::lookups::{self, find};
use crate::names::{self, write_name};
use crate::programs::{self, outcome};
use crate::spellings::{self, spell};
use crate::tables::{self, tell_rows};
use crate::units::{self, printed_twice, read_twice};
use jr_table::Table;
use std::alloc::Global;
use std::process::Abort;

/// Asserts that an answer is the expected one, and tells both where it isn't.
pub(crate) fn assert_same(rt: &impl Abort, told: &str, expected: &str) {
    assert!(rt; told == expected, "{told:?}, not {expected:?}");
}

/// What stands in front of the first of these marks, and what stands behind it.
pub(crate) fn cut_at<'a>(text: &'a str, mark: &str) -> (&'a str, &'a str) {
    match text.split_once(mark) {
        None => (text, ""),
        Some(halves) => halves,
    }
}

/// The number that a text is.
pub(crate) fn number(rt: &impl Abort, text: &str) -> u32 {
    text.parse::<u32>().expect(rt, "a number")
}

/// The answer to a row about a text by itself.
fn answer_of_text(rt: &impl Abort, alloc: Global, kind: &str, asked: &str) -> String {
    match kind {
        "part" => cut(rt, alloc, asked),
        "edits" => edit(rt, alloc, asked),
        "gap" => gap(rt, alloc, asked),
        "end" => end_of_class(rt, alloc, asked),
        "grid" => moves_behind(rt, alloc, asked),
        "reach" => reach(rt, alloc, asked),
        "used" => used(rt, alloc, asked),
        "cross" => cross(rt, alloc, asked),
        "depend" => depend(rt, alloc, asked),
        "lex" => lex_text(rt, alloc, asked),
        "identifier" => identify(rt, alloc, asked),
        "depth" => too_deep(rt, alloc, asked),
        "whole" => read_whole(rt, alloc, asked),
        "printed" => printed_twice(rt, alloc, asked),
        "unit" => read_twice(rt, alloc, asked),
        _ => read_expression(rt, alloc, kind, asked),
    }
}

/// The answer to a row about a program, or about what a table knows; or about a text by itself.
fn answer(rt: &impl Abort, alloc: Global, table: &Table, asked: &str) -> String {
    let (kind, asked) = cut_at(asked, " ");
    match kind {
        "program" => outcome(rt, alloc, asked),
        "graph" | "list" => tell_of_graph(rt, alloc, kind, asked),
        "count" => tell_count_of(rt, alloc, asked),
        "footprint" | "statements" | "plain" | "before" | "range" | "null" => {
            tell_of_part(rt, alloc, kind, asked)
        }
        "superclasses" => superclasses(rt, alloc, asked),
        "fields" => field_types(rt, alloc, asked),
        "text" => write_name(rt, alloc, asked),
        "table" => tell_rows(rt, alloc, table, asked),
        "find" => find(rt, alloc, table, asked),
        "spell" => spell(rt, alloc, table, asked),
        _ => answer_of_text(rt, alloc, kind, asked),
    }
}

/// Asserts that the rows are answered as they say of the program of these files, and that there are
/// so many.
fn assert_rows(rt: &impl Abort, alloc: Global, program: &str, rows: &str, count: u32) {
    let table = table_of(rt, alloc, program);
    let mut seen = 0u32;
    for row in rows.split('~') {
        if let Some((asked, expected)) = row.split_once(" => ") {
            let expected = expected.strip_suffix("\n").expect(rt, "a line");
            assert_same(rt, answer(rt, alloc, &table, asked).as_str(), expected);
            seen = seen.wrapping_add(1);
        }
    }
    assert!(rt; seen == count);
}

#[test]
fn rows_about_texts(rt: HostRuntime) {
    assert_rows(&rt, rt.alloc(), "", edits::ROWS, 11);
    assert_rows(&rt, rt.alloc(), "", layouts::ROWS, 18);
    assert_rows(&rt, rt.alloc(), "", grid::ROWS, 7);
    assert_rows(&rt, rt.alloc(), "", flow::ROWS, 18);
    assert_rows(&rt, rt.alloc(), "", depending::PAIRS, 32);
    assert_rows(&rt, rt.alloc(), "", depending::LISTS, 16);
    assert_rows(&rt, rt.alloc(), "", lexing::ROWS, 79);
    assert_rows(&rt, rt.alloc(), "", expressions::ROWS, 103);
    assert_rows(&rt, rt.alloc(), "", units::ROWS, 82);
}

#[test]
fn rows_about_programs(rt: HostRuntime) {
    assert_rows(&rt, rt.alloc(), "", programs::ROWS, 40);
    assert_rows(&rt, rt.alloc(), "", builds::ROWS, 19);
    assert_rows(&rt, rt.alloc(), "", names::ROWS, 7);
    assert_rows(&rt, rt.alloc(), "", graphs::ROWS, 107);
    assert_rows(&rt, rt.alloc(), lookups::PROGRAM, lookups::ROWS, 52);
    assert_rows(&rt, rt.alloc(), tables::PROGRAM, tables::ROWS, 35);
    assert_rows(&rt, rt.alloc(), spellings::PROGRAM, spellings::ROWS, 98);
}
