//! What standard error gets, and what the process ends with.
use crate::memory::{shelf_of, utf8, words_of};
use crate::rows::{cut_at, number};
use jr_shelf::MemorySink;
use jr_top::{end, serve, status_of};
use std::alloc::Global;
use std::io::{Error, ErrorKind};
use std::process::Abort;

/// The put that fails and a line of words, and the number of the status, and what standard output
/// and standard error get.
pub(crate) const ROWS: &'static str = "
~ending 0 rename A.java 41 b => 0 | class A{static int f;static void m(){int b=1;f=b;}} |\x20
~ending 0 rename A.java 41 a => 1 | refused 14 Clash A.m()#0\n |\x20
~ending 0 run s.json A.java => 0 | []\n |\x20
~ending 0 rename A.java => 2 |  | jref: usage\n
~ending 0 run => 2 |  | jref: usage\n
~ending 0 rename C.java 41 b => 3 |  | jref: cannot read C.java\n
~ending 0 run s.json A.java C.java => 3 |  | jref: cannot read C.java\n
~ending 1 run s.json => 4 |  | jref: write fault after 0 files\n
~ending 0 run A.java => 5 |  | jref: bad script\n
~ending 0 rename B.java 41 b => 6 |  | jref: bad source B.java\n
~ending 0 run s.json A.java B.java => 6 |  | jref: bad source B.java\n
";

/// How the program ends with these words, and what standard output and standard error got, where
/// the shelf holds a source as A.java, bytes that are no text as B.java and a script as s.json.
pub(crate) fn end_by(rt: &impl Abort, alloc: Global, asked: &str) -> String {
    let (failing, line) = cut_at(asked, " ");
    let held = [
        (
            "A.java",
            b"class A{static int f;static void m(){int a=1;f=a;}}".as_slice(),
        ),
        ("B.java", b"\xff".as_slice()),
        ("s.json", b"[]".as_slice()),
    ];
    let mut shelf = shelf_of(rt, alloc, held.as_slice(), &[]);
    let puts = [number(rt, failing)].to_vec(alloc).expect(rt, "memory");
    let mut sink = MemorySink::new(alloc, puts, 1_000).expect(rt, "memory");
    let mut errors = MemorySink::new(alloc, Vec::new(alloc), 1_000).expect(rt, "memory");
    let words = words_of(rt, alloc, line);
    let ending = serve(alloc, words.as_slice(), &mut shelf, &mut sink, &mut errors);
    let status = ending.status.number();
    let output = utf8(rt, alloc, sink.bytes());
    let reported = utf8(rt, alloc, errors.bytes());
    format!(in alloc; "{status} | {output} | {reported}").expect(rt, "memory")
}

fn assert_reported(rt: &impl Abort, alloc: Global, kind: ErrorKind, reported: &str) {
    let mut errors = MemorySink::new(alloc, Vec::new(alloc), 1_000).expect(rt, "memory");
    let _ = end(&status_of(&Error::from(kind)), &[], &mut errors);
    assert!(rt; errors.bytes() == reported.as_bytes());
}

// Where there are no words.
#[test]
fn what_no_words_get(rt: HostRuntime) {
    assert_reported(&rt, rt.alloc(), ErrorKind::OutOfMemory, "jref: no memory\n");
    assert_reported(&rt, rt.alloc(), ErrorKind::InvalidData, "jref: usage\n");
}
