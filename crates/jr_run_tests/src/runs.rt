//! Runs over shelves in memory.
use crate::memory::{put, shelf_of, text_of, utf8, words_of};
use crate::rows::{assert_same, cut_at, number};
use crate::shows::nest;
use jr_shelf::{MemoryShelf, MemorySink};
use jr_top::run;
use std::alloc::Global;
use std::process::Abort;

/// How a run ended, what its sink took, and its shelf.
#[derive(Drop)]
pub(crate) struct RunEnd {
    pub told: String,
    pub shelf: MemoryShelf,
}

/// A run of the words over these files, where the call of the shelf and the put of these numbers
/// fail: how it ended, and behind ` | ` what its sink took.
fn run_words(
    rt: &impl Abort,
    alloc: Global,
    held: &[(&str, &[u8])],
    words: &[String],
    call: u32,
    failing: u32,
) -> RunEnd {
    let mut shelf = shelf_of(rt, alloc, held, &[call]);
    let puts = [failing].to_vec(alloc).expect(rt, "memory");
    let mut sink = MemorySink::new(alloc, puts, 2_000_000).expect(rt, "memory");
    let status = run(alloc, words, &mut shelf, &mut sink);
    let mut told = format!(in alloc; "{status:?} | ").expect(rt, "memory");
    put(rt, &mut told, utf8(rt, alloc, sink.bytes()).as_str());
    RunEnd { told, shelf }
}

/// A run of the words that single spaces part.
pub(crate) fn run_line(
    rt: &impl Abort,
    alloc: Global,
    held: &[(&str, &[u8])],
    line: &str,
    call: u32,
    failing: u32,
) -> RunEnd {
    let words = words_of(rt, alloc, line);
    run_words(rt, alloc, held, words.as_slice(), call, failing)
}

/// How a run ended, its report without the line end, and what files hold in the end, behind ` | `
/// the first.
pub(crate) fn end_told(rt: &impl Abort, alloc: Global, end: &RunEnd, names: &str) -> String {
    let mut text = text_of(rt, alloc, end.told.as_str().trim_end_matches('\n'));
    put(rt, &mut text, " |");
    for name in names.split(',') {
        put(rt, &mut text, " ");
        match end.shelf.bytes_of(name) {
            None => put(rt, &mut text, "none"),
            Some(bytes) => put(rt, &mut text, utf8(rt, alloc, bytes).as_str()),
        }
    }
    text
}

/// A show before and after an edit of another file, by which a name comes to mean what is
/// inherited.
const SHOWS: &str = "[{\"step\":\"show\",\"file\":\"Q.java\",\"what\":\"bindings\"},\
     {\"step\":\"edit\",\"file\":\"P.java\",\"from\":8,\"to\":8,\"text\":\"int x;\"},\
     {\"step\":\"show\",\"file\":\"Q.java\",\"what\":\"bindings\"}]";

const SHOWN: &str = "Done | [{\"lines\":[\"44 B B\",\"61 x O.x\"],\"reply\":\"shown\"},\
     {\"reply\":\"edited\"},{\"lines\":[\"44 B B\",\"61 x B.x\"],\"reply\":\"shown\"}] | \
     class B{int x;} class O{static int x;static class C extends B{int m(){return x;}}}";

fn assert_shows(rt: &impl Abort, alloc: Global) {
    let script: &str = SHOWS;
    let held = [
        ("s.json", script.as_bytes()),
        ("P.java", b"class B{}".as_slice()),
        (
            "Q.java",
            b"class O{static int x;static class C extends B{int m(){return x;}}}".as_slice(),
        ),
    ];
    let line = "run s.json P.java Q.java";
    let end = run_line(rt, alloc, held.as_slice(), line, 0, 0);
    let told = end_told(rt, alloc, &end, "P.java,Q.java");
    assert_same(rt, told.as_str(), SHOWN);
    assert!(rt; end.told.as_str().ends_with("]\n"));
}

/// The call of the shelf that fails, and a script over A.java, which holds `class A{}`; how the run
/// ends, its report without the line end, and what A.java holds in the end. Where the text stays, a
/// store, which would be the third call of the shelf, would fail.
pub(crate) const SCRIPTS: &'static str = "
~one 3 [] => Done | [] | class A{}
~one 0 [{\"step\":\"edit\",\"file\":\"A.java\",\"from\":8,\"to\":8,\"text\":\"int a;\"}] => \
    Done | [{\"reply\":\"edited\"}] | class A{int a;}
~one 3 [{\"step\":\"edit\",\"file\":\"A.java\",\"from\":8,\"to\":8,\"text\":\"int \
    f;\"},{\"step\":\"undo\"},{\"step\":\"redo\"},{\"step\":\"edit\",\"file\":\"A.java\",\
    \"from\":0,\"to\":1,\"text\":\"\"},{\"step\":\"undo\"},{\"step\":\"undo\"},\
    {\"step\":\"undo\"}] => Refused | \
    [{\"reply\":\"edited\"},{\"reply\":\"undone\"},{\"reply\":\"redone\"},\
    {\"reply\":\"edited\"},{\"reply\":\"undone\"},{\"reply\":\"undone\"},{\"number\":21,\
    \"refusal\":\"NothingToUndo\",\"reply\":\"refused\"}] | class A{}
~one 0 \
    [{\"step\":\"redo\"},{\"step\":\"edit\",\"file\":\"A.java\",\"from\":9,\"to\":9,\"text\":\" \
    \"}] => Refused | \
    [{\"number\":22,\"refusal\":\"NothingToRedo\",\"reply\":\"refused\"},\
    {\"reply\":\"edited\"}] | class A{}\x20
~one 3 [{\"step\":\"edit\",\"file\":\"B.java\",\"from\":0,\"to\":0,\"text\":\" \"}] => Refused \
    | [{\"number\":1,\"refusal\":\"NoSuchFile B.java\",\"reply\":\"refused\"}] | class A{}
~one 3 [{\"step\":\"edit\",\"file\":\"A.java\",\"from\":3,\"to\":2,\"text\":\"\"}] => \
    Refused | [{\"number\":19,\"refusal\":\"BadSpan 3 2\",\"reply\":\"refused\"}] | class A{}
~one 0 \
    [{\"step\":\"edit\",\"file\":\"A.java\",\"from\":8,\"to\":9,\"text\":\"\"},\
    {\"step\":\"show\",\"file\":\"A.java\",\"what\":\"bindings\"}] => Refused | \
    [{\"reply\":\"edited\"},{\"number\":4,\"refusal\":\"SourceError A.java:8 \
    Syntax\",\"reply\":\"refused\"}] | class A{
~one 3 {} => BadScript(the script is no list) |  | class A{}
~one 3 [ => BadScript(the script is no JSON) |  | class A{}
~one 3 [{\"step\":\"undo\",\"x\":1}] => BadScript(step 0 is none, by its member x) |  | class A{}
~one 3 [{\"step\":\"undo\"},{\"step\":\"do\"}] => \
    BadScript(step 1 is none, by its member step) |  | class A{}
";

pub(crate) fn run_one(rt: &impl Abort, alloc: Global, asked: &str) -> String {
    let (call, script) = cut_at(asked, " ");
    let held = [
        ("s.json", script.as_bytes()),
        ("A.java", b"class A{}".as_slice()),
    ];
    let line = "run s.json A.java";
    let end = run_line(rt, alloc, held.as_slice(), line, number(rt, call), 0);
    end_told(rt, alloc, &end, "A.java")
}

/// Lines of words over an empty script, a file that is no text and one that isn't there, how the
/// run ends, which is by the first fault in the order of work, and what its sink takes.
pub(crate) const WORDS: &'static str = "
~bad run s.json => Done | []\n
~bad run s.json A.java => BadSource { word: 2, fault: NotUtf8 { valid: 9 } } |\x20
~bad run s.json B.java => ReadFault { word: 2 } |\x20
~bad run s.json A.java B.java => BadSource { word: 2, fault: NotUtf8 { valid: 9 } } |\x20
~bad run s.json B.java A.java => ReadFault { word: 2 } |\x20
~bad run A.java => BadScript(the script is no JSON) |\x20
~bad run A.java B.java => BadScript(the script is no JSON) |\x20
~bad run s.json A.java A.java => Usage |\x20
~bad run => Usage |\x20
~bad run --out => Usage |\x20
~bad run s.json -x => Usage |\x20
~bad rename A.java x b => Usage |\x20
~bad  => Usage |\x20
";

fn run_over_bad(rt: &impl Abort, alloc: Global, words: &[String]) -> String {
    let held = [
        ("s.json", b"[]".as_slice()),
        ("A.java", b"class A{}\xff".as_slice()),
    ];
    run_words(rt, alloc, held.as_slice(), words, 0, 0).told
}

pub(crate) fn run_bad(rt: &impl Abort, alloc: Global, line: &str) -> String {
    let words = words_of(rt, alloc, line);
    run_over_bad(rt, alloc, words.as_slice())
}

const EDITS: &str = "[{\"step\":\"edit\",\"file\":\"A\",\"from\":0,\"to\":0,\"text\":\"1\"},\
     {\"step\":\"edit\",\"file\":\"B\",\"from\":0,\"to\":0,\"text\":\"2\"},\
     {\"step\":\"edit\",\"file\":\"C\",\"from\":0,\"to\":0,\"text\":\"3\"}]";

/// The call of the shelf that fails, the put that does, files, and words; how the run ends, its
/// report, and what the files hold in the end. Each call of the shelf and of the sink fails in
/// turn, in a run that stores three files in place; stores go to a folder, under the words of the
/// files.
pub(crate) const FAULTS: &'static str = "
~edits 1 0 A,B,C run s A B C => ReadFault { word: 1 } |  | a b c
~edits 2 0 A,B,C run s A B C => ReadFault { word: 2 } |  | a b c
~edits 3 0 A,B,C run s A B C => ReadFault { word: 3 } |  | a b c
~edits 4 0 A,B,C run s A B C => ReadFault { word: 4 } |  | a b c
~edits 5 0 A,B,C run s A B C => WriteFault { stored: 0 } |  | a b c
~edits 6 0 A,B,C run s A B C => WriteFault { stored: 1 } |  | 1a b c
~edits 7 0 A,B,C run s A B C => WriteFault { stored: 2 } |  | 1a 2b c
~edits 0 1 A,B,C run s A B C => WriteFault { stored: 3 } |  | 1a 2b 3c
~edits 8 2 A,B,C run s A B C => \
    Done | [{\"reply\":\"edited\"},{\"reply\":\"edited\"},{\"reply\":\"edited\"}] | 1a 2b 3c
~edits 2 0 A run s A => ReadFault { word: 2 } |  | a
~edits 0 0 A,d/A,d/B,d/C run s A --out d B C => \
    Done | [{\"reply\":\"edited\"},{\"reply\":\"edited\"},{\"reply\":\"edited\"}] | \
    a 1a 2b 3c
";

pub(crate) fn run_edits(rt: &impl Abort, alloc: Global, asked: &str) -> String {
    let (call, rest) = cut_at(asked, " ");
    let (failing, rest) = cut_at(rest, " ");
    let (names, line) = cut_at(rest, " ");
    let script: &str = EDITS;
    let held = [
        ("s", script.as_bytes()),
        ("A", b"a".as_slice()),
        ("B", b"b".as_slice()),
        ("C", b"c".as_slice()),
    ];
    let (call, failing) = (number(rt, call), number(rt, failing));
    let end = run_line(rt, alloc, held.as_slice(), line, call, failing);
    end_told(rt, alloc, &end, names)
}

/// A run over A.java, of which nothing is stored: the second call of the shelf would fail.
pub(crate) fn run_over(rt: &impl Abort, alloc: Global, source: &[u8], line: &str) -> String {
    run_line(rt, alloc, &[("A.java", source)], line, 2, 0).told
}

/// The same, of words and, behind `@`, what A.java holds.
pub(crate) fn run_source(rt: &impl Abort, alloc: Global, asked: &str) -> String {
    let (line, source) = cut_at(asked, "@");
    run_over(rt, alloc, source.as_bytes(), line)
}

/// The same, where another call of the shelf or a put fails.
pub(crate) fn run_failing(
    rt: &impl Abort,
    alloc: Global,
    source: &str,
    line: &str,
    call: u32,
    failing: u32,
) -> String {
    run_line(
        rt,
        alloc,
        &[("A.java", source.as_bytes())],
        line,
        call,
        failing,
    )
    .told
}

#[test]
fn shows_and_no_words(rt: HostRuntime) {
    assert_shows(&rt, rt.alloc());
    let told = run_over_bad(&rt, rt.alloc(), &[]);
    assert_same(&rt, told.as_str(), "Usage | ");
}

// A show of the bindings of a class in which so many parentheses nest, over its one file.
fn show_nested(rt: &impl Abort, alloc: Global, count: usize) -> String {
    let script: &str = "[{\"step\":\"show\",\"file\":\"A.java\",\"what\":\"bindings\"}]";
    let source = nest(rt, alloc, count);
    let held = [("s.json", script.as_bytes()), ("A.java", source.as_bytes())];
    run_line(rt, alloc, held.as_slice(), "run s.json A.java", 3, 0).told
}

#[test]
fn shows_of_nested_parentheses(rt: HostRuntime) {
    let within = show_nested(&rt, rt.alloc(), 99);
    let expected = "Done | [{\"lines\":[],\"reply\":\"shown\"}]\n";
    assert_same(&rt, within.as_str(), expected);
    let beyond = show_nested(&rt, rt.alloc(), 100);
    let expected = "Refused | [{\"number\":4,\"refusal\":\"SourceError A.java:113 Deep\",\
        \"reply\":\"refused\"}]\n";
    assert_same(&rt, beyond.as_str(), expected);
}
