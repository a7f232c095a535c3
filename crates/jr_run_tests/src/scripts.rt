//! What scripts are read as.
use crate::memory::{put, put_times};
use crate::rows::assert_same;
use jr_names::{Step, What};
use jr_script::{ScriptFault, read_script};
use std::alloc::Global;
use std::process::Abort;

/// Scripts, and what they are read as. Each expected answer is that of the table of steps, or of
/// RFC 8259 as serde_json 1.0 documents its reading.
pub(crate) const ROWS: &'static str = "
~script [] =>\x20
~script  [ ] \n =>\x20
~script [{\"step\":\"undo\"},{\"step\":\"redo\"}] => undo;redo;
~script [{\"text\":\"x\",\"to\":2,\"from\":1,\"file\":\"A.java\",\"step\":\"edit\"}] => \
    edit A.java 1 2 x;
~script \
    [{\"step\":\"edit\",\"file\":\"\",\"from\":0,\"to\":4294967295,\"text\":\"\\u00e9\\n\"}] => \
    edit  0 4294967295 é\n;
~script [{\"step\":\"show\",\"file\":\"A.java\",\"what\":\"bindings\"}] => show A.java bindings;
~script [{\"step\":\"show\",\"what\":\"dependences\",\"file\":\"A\"}] => show A dependences;
~script [{\"name\":\"b\",\"step\":\"rename\",\"at\":4294967295,\"file\":\"A.java\"}] => \
    rename A.java 4294967295 b;
~# The last of two equal names stays, and an escaped name is the name.
~script [{\"step\":\"redo\",\"step\":\"undo\"}] => undo;
~script [{\"st\\u0065p\":\"und\\u006f\"}] => undo;
~# No JSON.
~script  => NotJson
~script [ => NotJson
~script []] => NotJson
~script [{\"step\":\"undo\"},] => NotJson
~script \u{feff}[] => NotJson
~script [{\"step\":\"\\ud800\"}] => NotJson
~script [{\"step\":\"undo\",\"x\":01}] => NotJson
~script [{\"step\":\"undo\",\"x\":1e400}] => NotJson
~# No list.
~script {} => NotAList
~script null => NotAList
~script \"undo\" => NotAList
~# No known word.
~script [1] => NotAScript 0 step
~script [[]] => NotAScript 0 step
~script [{}] => NotAScript 0 step
~script [{\"step\":1}] => NotAScript 0 step
~script [{\"step\":\"Undo\"}] => NotAScript 0 step
~script [{\"step\":\"pull_up\",\"file\":\"A.java\",\"at\":1}] => NotAScript 0 step
~script [{\"step\":\"undo\"},{\"step\":\"do\",\"a\":1}] => NotAScript 1 step
~# The first member of the row that is missing or of the wrong kind.
~script [{\"step\":\"edit\",\"a\":1}] => NotAScript 0 file
~script [{\"step\":\"edit\",\"file\":null,\"from\":0,\"to\":0,\"text\":\"\"}] => \
    NotAScript 0 file
~script [{\"step\":\"edit\",\"file\":\"A\",\"from\":1.0,\"to\":0,\"text\":\"\"}] => \
    NotAScript 0 from
~script [{\"step\":\"edit\",\"file\":\"A\",\"from\":1e2,\"to\":0,\"text\":\"\"}] => \
    NotAScript 0 from
~script [{\"step\":\"edit\",\"file\":\"A\",\"from\":-0,\"to\":0,\"text\":\"\"}] => \
    NotAScript 0 from
~script [{\"step\":\"edit\",\"file\":\"A\",\"from\":-1,\"to\":-1,\"text\":\"\"}] => \
    NotAScript 0 from
~script [{\"step\":\"edit\",\"file\":\"A\",\"from\":0,\"to\":4294967296,\"text\":\"\"}] => \
    NotAScript 0 to
~script [{\"step\":\"edit\",\"file\":\"A\",\"from\":0,\"to\":\"1\",\"text\":\"\"}] => \
    NotAScript 0 to
~script [{\"step\":\"edit\",\"file\":\"A\",\"from\":0,\"to\":0,\"a\":1}] => NotAScript 0 text
~script [{\"step\":\"rename\",\"file\":\"A\",\"at\":-1,\"name\":\"b\"}] => NotAScript 0 at
~script [{\"step\":\"rename\",\"file\":\"A\",\"at\":0,\"new\":\"b\"}] => NotAScript 0 name
~script [{\"step\":\"show\",\"what\":\"bindings\"}] => NotAScript 0 file
~script [{\"step\":\"show\",\"file\":\"A\",\"what\":\"sites\"}] => NotAScript 0 what
~script [{\"step\":\"show\",\"file\":\"A\",\"what\":[\"dependences\"]}] => \
    NotAScript 0 what
~# The first surplus member in byte order, whatever the order of the text.
~script [{\"step\":\"undo\",\"x\":1}] => NotAScript 0 x
~script [{\"step\":\"undo\",\"b\":1,\"\":2,\"a\":3,\"B\":4}] => NotAScript 0\x20
~script [{\"step\":\"undo\",\"é\":1,\"b\":1,\"ba\":2,\"B\":4}] => NotAScript 0 B
~script [{\"step\":\"redo\"},{\"step\":\"redo\",\"file\":\"A\"}] => NotAScript 1 file
";

fn put_fault(rt: &impl Abort, text: &mut String, fault: &ScriptFault) {
    match fault {
        ScriptFault::TooLong => put(rt, text, "TooLong"),
        ScriptFault::NotJson => put(rt, text, "NotJson"),
        ScriptFault::NotAList => put(rt, text, "NotAList"),
        ScriptFault::TooMany { count } => write!(text, "TooMany {count}").expect(rt, "memory"),
        ScriptFault::NotAScript { step, member } => {
            let member = member.as_str();
            write!(text, "NotAScript {step} {member}").expect(rt, "memory");
        }
        ScriptFault::Memory => put(rt, text, "Memory"),
    }
}

fn put_step(rt: &impl Abort, out: &mut String, step: &Step) {
    match step {
        Step::Edit {
            file,
            from,
            to,
            text,
        } => {
            let file = file.as_str();
            let text = text.as_str();
            write!(out, "edit {file} {from} {to} {text};").expect(rt, "memory");
        }
        Step::Rename { file, at, name } => {
            let file = file.as_str();
            let name = name.as_str();
            write!(out, "rename {file} {at} {name};").expect(rt, "memory");
        }
        Step::Show { file, what } => {
            put(rt, out, "show ");
            put(rt, out, file.as_str());
            match what {
                What::Bindings => put(rt, out, " bindings;"),
                What::Dependences => put(rt, out, " dependences;"),
            }
        }
        Step::Undo => put(rt, out, "undo;"),
        Step::Redo => put(rt, out, "redo;"),
        _ => put(rt, out, "unbuilt;"),
    }
}

/// What a script is read as: its steps, or its fault.
pub(crate) fn read(rt: &impl Abort, alloc: Global, bytes: &[u8]) -> String {
    let mut text = String::new(alloc);
    match read_script(alloc, bytes) {
        Ok(steps) => {
            for step in &steps {
                put_step(rt, &mut text, step);
            }
        }
        Err(fault) => put_fault(rt, &mut text, &fault),
    }
    text
}

/// The text with so many times the middle between its ends.
fn repeat(
    rt: &impl Abort,
    alloc: Global,
    front: &str,
    middle: &str,
    times: usize,
    back: &str,
) -> String {
    let mut text = String::from_str(alloc, front).expect(rt, "memory");
    put_times(rt, &mut text, middle, times);
    put(rt, &mut text, back);
    text
}

fn assert_read(
    rt: &impl Abort,
    alloc: Global,
    middle: &str,
    times: usize,
    back: &str,
    expected: &str,
) {
    let script = repeat(rt, alloc, "[", middle, times, back);
    assert_same(rt, read(rt, alloc, script.as_bytes()).as_str(), expected);
}

/// Arrays in arrays, so many deep.
fn assert_nested(rt: &impl Abort, alloc: Global, times: usize, expected: &str) {
    let open = repeat(rt, alloc, "", "[", times, "");
    let script = repeat(rt, alloc, open.as_str(), "]", times, "");
    assert_same(rt, read(rt, alloc, script.as_bytes()).as_str(), expected);
}

fn steps_in(rt: &impl Abort, alloc: Global, script: &str) -> usize {
    let steps = read_script(alloc, script.as_bytes()).ok();
    steps.expect(rt, "a script").len()
}

#[test]
fn bytes_and_limits(rt: HostRuntime) {
    let alloc = rt.alloc();
    let no_text = read(&rt, alloc, b"[{\"step\":\"\xff\"}]");
    assert_same(&rt, no_text.as_str(), "NotJson");
    // 1,048,576 bytes, and one more.
    assert_read(&rt, alloc, " ", 1_048_574, "]", "");
    assert_read(&rt, alloc, " ", 1_048_575, "]", "TooLong");
    // 1,000 steps, and one more.
    let undo = "{\"step\":\"undo\"},";
    let most = repeat(&rt, alloc, "[", undo, 999, "{\"step\":\"undo\"}]");
    assert!(rt; steps_in(&rt, alloc, most.as_str()) == 1000);
    assert_read(&rt, alloc, "0,", 1000, "0]", "TooMany 1001");
    // Arrays nest 127 deep at most.
    assert_nested(&rt, alloc, 127, "NotAScript 0 step");
    assert_nested(&rt, alloc, 128, "NotJson");
}
