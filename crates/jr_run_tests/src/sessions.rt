//! Sessions: how they begin, their steps and their refusals.
use crate::memory::put_times;
use crate::rows::{assert_same, cut_at, number};
use jr_ast::Name;
use jr_names::{Refusal, Reply};
use jr_session::Session;
use jr_text::Text;
use std::alloc::Global;
use std::process::Abort;

/// What is asked of a session with one file, which is first `class A{}`; the reply, and the file's
/// text behind it.
const ROWS: &'static str = "
~redo => NothingToRedo class A{}
~edit 8 8 int f; => edited class A{int f;}
~undo => undone class A{}
~redo => redone class A{int f;}
~edit 0 1  => edited lass A{int f;}
~redo => NothingToRedo lass A{int f;}
~undo => undone class A{int f;}
~undo => undone class A{}
~undo => NothingToUndo class A{}
~redo => redone class A{int f;}
~edit 3 2  => BadSpan class A{int f;}
~edit 15 16  => BadSpan class A{int f;}
~edit 15 15 /*λ*/ => edited class A{int f;}/*λ*/
~edit 18 18 x => BadSpan class A{int f;}/*λ*/
~undo => undone class A{int f;}
";

// The reply, with the fields of a refusal for a span, a length and a file.
fn tell_reply(rt: &impl Abort, alloc: Global, reply: &Reply) -> String {
    let text = match reply {
        Reply::Edited => "edited",
        Reply::Refactored { .. } => "refactored",
        Reply::Shown(_) => "shown",
        Reply::Undone => "undone",
        Reply::Redone => "redone",
        Reply::Refused(refusal) => refusal.name(),
    };
    String::from_str(alloc, text).expect(rt, "memory")
}

// A refusal with its fields.
fn tell_refusal(rt: &impl Abort, alloc: Global, reply: &Reply) -> String {
    match reply {
        Reply::Refused(Refusal::BadSpan { from, to }) => {
            format!(in alloc; "BadSpan {from} {to}").expect(rt, "memory")
        }
        Reply::Refused(Refusal::TooLong { len }) => {
            format!(in alloc; "TooLong {len}").expect(rt, "memory")
        }
        Reply::Refused(Refusal::NoSuchFile { name }) => {
            format!(in alloc; "no {}", name.as_str()).expect(rt, "memory")
        }
        other => tell_reply(rt, alloc, other),
    }
}

fn ask(
    rt: &impl Abort,
    alloc: Global,
    session: &mut Session,
    file: &Name,
    asked: &str,
) -> Box<Reply> {
    let (act, rest) = cut_at(asked, " ");
    let reply = match act {
        "edit" => {
            let (from, rest) = cut_at(rest, " ");
            let (to, text) = cut_at(rest, " ");
            let text = Name::new(alloc, text).expect(rt, "memory");
            session.edit(alloc, file, number(rt, from), number(rt, to), &text)
        }
        "undo" => session.undo(alloc),
        _ => session.redo(alloc),
    };
    Box::new(alloc, reply.expect(rt, "memory")).expect(rt, "memory")
}

fn file(rt: &impl Abort, alloc: Global, name: &str, text: &str) -> (String, Text) {
    let name = String::from_str(alloc, name).expect(rt, "memory");
    (name, Text::new(alloc, text.as_bytes()).expect(rt, "a text"))
}

// Files of these names and texts.
fn files(rt: &impl Abort, alloc: Global, rows: &[(&str, &str)]) -> Vec<(String, Text)> {
    let mut files = Vec::new(alloc);
    for (name, text) in rows {
        files.push(file(rt, alloc, name, text)).expect(rt, "memory");
    }
    files
}

// A session of these files, or the fault of its beginning.
fn begin(rt: &impl Abort, alloc: Global, files: Vec<(String, Text)>) -> Result<Session, String> {
    assert!(rt; files.len() < 1000);
    match Session::begin(alloc, files) {
        Ok(session) => Ok(session),
        Err(fault) => Err(format!(in alloc; "{fault:?}").expect(rt, "memory")),
    }
}

const OTHER: &str = "class B{}";

fn assert_steps(rt: &impl Abort, alloc: Global, session: &mut Session, rows: &str) {
    let name = Name::new(alloc, "A.java").expect(rt, "memory");
    let mut seen = 0u32;
    for row in rows.split('~') {
        if let Some((asked, expected)) = row.split_once(" => ") {
            let (reply, text) = cut_at(expected.strip_suffix("\n").expect(rt, "a line"), " ");
            let answer = ask(rt, alloc, session, &name, asked);
            assert_same(rt, tell_reply(rt, alloc, &answer).as_str(), reply);
            assert!(rt; session.text("A.java") == Some(text), "{text}");
            assert!(rt; session.text("B.java") == Some(OTHER));
            seen = seen.wrapping_add(1);
        }
    }
    assert!(rt; seen == 15);
}

#[test]
fn steps_of_one_file(rt: HostRuntime) {
    let files = files(
        &rt,
        rt.alloc(),
        &[("B.java", OTHER), ("A.java", "class A{}")],
    );
    let mut session = begin(&rt, rt.alloc(), files).expect(&rt, "a session");
    assert_steps(&rt, rt.alloc(), &mut session, ROWS);
    assert!(rt; session.can_undo() & session.can_redo());
    assert!(rt; session.text("C.java").is_none());
}

// The fields of refusals.
#[test]
fn refusals(rt: HostRuntime) {
    let alloc = rt.alloc();
    let files = files(&rt, alloc, &[("A.java", "class A{}")]);
    let mut session = begin(&rt, alloc, files).expect(&rt, "a session");
    assert!(rt; !session.can_undo() & !session.can_redo());
    let here = Name::new(alloc, "A.java").expect(&rt, "memory");
    let bad = ask(&rt, alloc, &mut session, &here, "edit 3 2 ");
    assert_same(&rt, tell_refusal(&rt, alloc, &bad).as_str(), "BadSpan 3 2");
    let there = Name::new(alloc, "B.java").expect(&rt, "memory");
    let missing = ask(&rt, alloc, &mut session, &there, "edit 3 2 ");
    assert_same(
        &rt,
        tell_refusal(&rt, alloc, &missing).as_str(),
        "no B.java",
    );
}

// So many letters.
fn letters(rt: &impl Abort, alloc: Global, count: usize) -> Text {
    let mut text = String::new(alloc);
    put_times(rt, &mut text, "a", count);
    Text::new(alloc, text.as_bytes()).expect(rt, "a text")
}

// A file of so many letters.
fn put_letters(
    rt: &impl Abort,
    alloc: Global,
    files: &mut Vec<(String, Text)>,
    name: &str,
    count: usize,
) {
    let name = String::from_str(alloc, name).expect(rt, "memory");
    files
        .push((name, letters(rt, alloc, count)))
        .expect(rt, "memory");
}

// Eight files of a million bytes, and one of so many.
fn large(rt: &impl Abort, alloc: Global, last: usize) -> Vec<(String, Text)> {
    let mut files = Vec::new(alloc);
    for name in ["a", "b", "c", "d", "e", "f", "g", "h"] {
        put_letters(rt, alloc, &mut files, name, 1_000_000);
    }
    put_letters(rt, alloc, &mut files, "i", last);
    files
}

// What an edit of the last file of these answers: the text from 0 up to a byte becomes so many
// letters.
fn edit_again(
    rt: &impl Abort,
    alloc: Global,
    session: &mut Session,
    to: u32,
    count: usize,
) -> String {
    let last = Name::new(alloc, "i").expect(rt, "memory");
    let new = letters(rt, alloc, count);
    let new = Name::new(alloc, new.as_str()).expect(rt, "memory");
    let reply = session.edit(alloc, &last, 0, to, &new).expect(rt, "memory");
    let reply = Box::new(alloc, reply).expect(rt, "memory");
    tell_refusal(rt, alloc, &reply)
}

// The fault of a beginning.
fn fault_of(rt: &impl Abort, alloc: Global, files: Vec<(String, Text)>) -> String {
    begin(rt, alloc, files).err().expect(rt, "a fault")
}

// A file's length is told before that of all files; both limits are met exactly.
#[test]
fn lengths(rt: HostRuntime) {
    let alloc = rt.alloc();
    let fault = fault_of(&rt, alloc, large(&rt, alloc, 388_609));
    assert_same(&rt, fault.as_str(), "TotalTooLong { len: 8388609 }");
    let files = large(&rt, alloc, 388_608);
    let mut session = begin(&rt, alloc, files).expect(&rt, "a session");
    let both = edit_again(&rt, alloc, &mut session, 0, 1);
    assert_same(&rt, both.as_str(), "TooLong 8388609");
    let longest = edit_again(&rt, alloc, &mut session, 0, 659_969);
    assert_same(&rt, longest.as_str(), "TooLong 1048577");
    let same = edit_again(&rt, alloc, &mut session, 1, 1);
    assert_same(&rt, same.as_str(), "edited");
}

#[test]
fn beginnings(rt: HostRuntime) {
    let alloc = rt.alloc();
    let twice = [("a", ""), ("b", ""), ("c", ""), ("b", ""), ("a", "")];
    let fault = fault_of(&rt, alloc, files(&rt, alloc, &twice));
    assert_same(&rt, fault.as_str(), "SameName { first: 1, second: 3 }");
    let mut many = Vec::new(alloc);
    for _ in 0..257 {
        put_letters(&rt, alloc, &mut many, "a", 0);
    }
    let fault = fault_of(&rt, alloc, many);
    assert_same(&rt, fault.as_str(), "TooMany { count: 257 }");
    let empty = begin(&rt, alloc, Vec::new(alloc)).expect(&rt, "a session");
    assert!(rt; empty.text("a").is_none());
}
