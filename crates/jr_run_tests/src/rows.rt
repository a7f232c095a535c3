//! Tables of rows in one text, a row a line: `~`, what is asked, ` => ` and what is expected. A
//! line without ` => ` is a remark.
use crate::dependences::{self, show_among, show_dependences, show_many};
use crate::endings::{self, end_by};
use crate::kinds::{self, run_kind};
use crate::locals::{self, run_extract};
use crate::renaming::{self, run_back, run_renamed, run_two};
use crate::runs::{self, run_bad, run_edits, run_one, run_source};
use crate::scripts::{self, read};
use crate::shows::{self, show_all};
use crate::words::{self, meaning};
use crate::{renames, rules};
use std::alloc::Global;
use std::process::Abort;

/// Asserts that an answer is the expected one, and tells both where it isn't.
pub(crate) fn assert_same(rt: &impl Abort, told: &str, expected: &str) {
    assert!(rt; told == expected, "{told:?}, not {expected:?}");
}

/// What stands in front of the first of these marks, and what stands behind it.
pub(crate) fn cut_at<'a>(text: &'a str, mark: &str) -> (&'a str, &'a str) {
    match text.split_once(mark) {
        None => (text, ""),
        Some(halves) => halves,
    }
}

/// The number that a text is.
pub(crate) fn number(rt: &impl Abort, text: &str) -> u32 {
    text.parse::<u32>().expect(rt, "a number")
}

/// The answer to a row: its first word says what is asked.
fn answer(rt: &impl Abort, alloc: Global, asked: &str) -> String {
    let (kind, asked) = cut_at(asked, " ");
    match kind {
        "words" => meaning(rt, alloc, asked),
        "script" => read(rt, alloc, asked.as_bytes()),
        "show" => show_all(rt, alloc, asked),
        "depends" => show_dependences(rt, alloc, asked),
        "among" => show_among(rt, alloc, asked),
        "many" => show_many(rt, alloc, asked),
        "one" => run_one(rt, alloc, asked),
        "bad" => run_bad(rt, alloc, asked),
        "edits" => run_edits(rt, alloc, asked),
        "source" => run_source(rt, alloc, asked),
        "two" => run_two(rt, alloc, asked),
        "three" => run_renamed(rt, alloc, asked),
        "rename" => run_kind(rt, alloc, asked),
        "extract" => run_extract(rt, alloc, asked),
        "back" => run_back(rt, alloc, asked),
        _ => end_by(rt, alloc, asked),
    }
}

/// Asserts that rows are answered as they say, and that there are so many of them.
fn assert_rows(rt: &impl Abort, alloc: Global, rows: &str, count: u32) {
    let mut seen = 0u32;
    for row in rows.split('~') {
        if let Some((asked, expected)) = row.split_once(" => ") {
            let expected = expected.strip_suffix("\n").expect(rt, "a line");
            assert_same(rt, answer(rt, alloc, asked).as_str(), expected);
            seen = seen.wrapping_add(1);
        }
    }
    assert!(rt; seen == count);
}

#[test]
fn rows_are_answered(rt: HostRuntime) {
    let alloc = rt.alloc();
    assert_rows(&rt, alloc, words::ROWS, 58);
    assert_rows(&rt, alloc, scripts::ROWS, 46);
    assert_rows(&rt, alloc, shows::ROWS, 37);
    assert_rows(&rt, alloc, rules::ROWS, 155);
    assert_rows(&rt, alloc, runs::SCRIPTS, 11);
    assert_rows(&rt, alloc, runs::WORDS, 13);
    assert_rows(&rt, alloc, runs::FAULTS, 11);
    assert_rows(&rt, alloc, renames::ROWS, 53);
    assert_rows(&rt, alloc, renaming::ROWS, 8);
    assert_rows(&rt, alloc, renaming::THREE, 8);
    assert_rows(&rt, alloc, renaming::BACK, 2);
    assert_rows(&rt, alloc, kinds::ROWS, 66);
    assert_rows(&rt, alloc, locals::ROWS, 61);
    assert_rows(&rt, alloc, endings::ROWS, 11);
    assert_rows(&rt, alloc, dependences::ROWS, 64);
    assert_rows(&rt, alloc, dependences::AMONG, 79);
    assert_rows(&rt, alloc, dependences::MANY, 14);
    assert_rows(&rt, alloc, dependences::SCRIPTS, 3);
}
