//! Files that are fetched and stored.
use crate::memory::{put_times, shelf_of};
use crate::rows::assert_same;
use jr_files::{FilesFault, SourceFault, Store, StoreFault, fetch_sources, store_all};
use jr_shelf::{MemoryShelf, MemorySink, Shelf, Sink};
use jr_text::Text;
use jr_words::Operand;
use std::alloc::Global;
use std::process::Abort;

const A: Operand = Operand { word: 2, text: "A" };

const B: Operand = Operand { word: 3, text: "B" };

const C: Operand = Operand { word: 4, text: "C" };

const MISSING: Operand = Operand { word: 9, text: "X" };

fn assert_sources(rt: &impl Abort, sources: &[(String, Text)], expected: &[(&str, &str)]) {
    assert!(rt; sources.len() == expected.len());
    for (source, (name, text)) in sources.iter().zip(expected) {
        assert_same(rt, source.0.as_str(), name);
        assert_same(rt, source.1.as_str(), text);
    }
}

fn assert_bytes(rt: &impl Abort, bytes: &[Vec<u8>], expected: &[(&str, &str)]) {
    for (bytes, (_, text)) in bytes.iter().zip(expected) {
        assert!(rt; bytes.as_slice() == text.as_bytes());
    }
}

#[test]
fn sources_are_fetched_in_order(rt: HostRuntime) {
    let held: &[(&str, &[u8])] = &[("B", b"b"), ("A", b""), ("C", b"\r\n")];
    let mut shelf = shelf_of(&rt, rt.alloc(), held, &[]);
    let fetched = fetch_sources(rt.alloc(), &[C, A, B], &mut shelf).expect(&rt, "sources");
    let expected = [("C", "\r\n"), ("A", ""), ("B", "b")];
    assert_sources(&rt, fetched.sources.as_slice(), &expected);
    assert_bytes(&rt, fetched.bytes.as_slice(), &expected);
}

// Whether this is the fault of the files, with few enough of them to be fetched.
fn is_fault(
    rt: &impl Abort,
    alloc: Global,
    files: &[Operand],
    shelf: &mut MemoryShelf,
    fault: Option<FilesFault>,
) -> bool {
    assert!(rt; files.len() < 1_000);
    fetch_sources(alloc, files, shelf).err() == fault
}

// The shelf's call that fails, the files, and the first fault.
type Fetch = (u32, &'static [Operand<'static>], FilesFault);

// A file that is missing is told where it stands before one that is no text.
const FETCHES: [Fetch; 3] = [
    (
        0,
        &[A, B, C],
        FilesFault::BadSource {
            word: 3,
            fault: SourceFault::NotUtf8 { valid: 2 },
        },
    ),
    (0, &[A, MISSING, B], FilesFault::Unread { word: 9 }),
    (2, &[A, B, C], FilesFault::Unread { word: 3 }),
];

fn assert_fetches(rt: &impl Abort, alloc: Global, rows: &[Fetch]) {
    let held: &[(&str, &[u8])] = &[("A", b"a"), ("B", b"ab\xff"), ("C", b"\xff")];
    for (call, files, fault) in rows {
        let mut shelf = shelf_of(rt, alloc, held, &[*call]);
        assert!(rt; is_fault(rt, alloc, files, &mut shelf, Some(*fault)));
    }
}

#[test]
fn first_file_that_is_no_source_is_told(rt: HostRuntime) {
    assert_fetches(&rt, rt.alloc(), &FETCHES);
}

fn put_file(rt: &impl Abort, files: &mut Vec<Operand<'static>>, file: Operand<'static>) {
    files.push(file).expect(rt, "memory");
}

#[test]
fn at_most_256_files(rt: HostRuntime) {
    let mut files = Vec::new(rt.alloc());
    for word in 2..258 {
        put_file(&rt, &mut files, Operand { word, text: "X" });
    }
    let mut shelf = shelf_of(&rt, rt.alloc(), &[], &[]);
    let fault = FilesFault::Unread { word: 2 };
    assert!(rt; is_fault(&rt, rt.alloc(), files.as_slice(), &mut shelf, Some(fault)));
    let last = Operand {
        word: 258,
        text: "X",
    };
    put_file(&rt, &mut files, last);
    // They are counted before any is fetched.
    let fault = FilesFault::BadSource {
        word: 258,
        fault: SourceFault::TooMany { count: 257 },
    };
    assert!(rt; is_fault(&rt, rt.alloc(), files.as_slice(), &mut shelf, Some(fault)));
}

// Eight times the file A, and the empty one.
fn eight_files(rt: &impl Abort, alloc: Global) -> Vec<Operand<'static>> {
    let mut files = Vec::new(alloc);
    for word in 0..8 {
        put_file(rt, &mut files, Operand { word, text: "A" });
    }
    put_file(rt, &mut files, B);
    files
}

#[test]
fn at_most_8_388_608_bytes(rt: HostRuntime) {
    let alloc = rt.alloc();
    let mut long = String::new(alloc);
    put_times(&rt, &mut long, " ", 1_048_576);
    let held = [
        ("A", long.as_bytes()),
        ("B", b"".as_slice()),
        ("C", b"12".as_slice()),
    ];
    let mut shelf = shelf_of(&rt, alloc, held.as_slice(), &[]);
    let mut files = eight_files(&rt, alloc);
    assert!(rt; is_fault(&rt, alloc, files.as_slice(), &mut shelf, None));
    // The total is looked at file by file: a later one that is missing isn't told.
    put_file(&rt, &mut files, C);
    put_file(&rt, &mut files, MISSING);
    let fault = FilesFault::BadSource {
        word: 4,
        fault: SourceFault::TotalTooLong { len: 8_388_610 },
    };
    assert!(rt; is_fault(&rt, alloc, files.as_slice(), &mut shelf, Some(fault)));
}

#[test]
fn at_most_1_048_576_bytes_of_a_file(rt: HostRuntime) {
    let mut long = String::new(rt.alloc());
    put_times(&rt, &mut long, " ", 1_048_577);
    let mut shelf = shelf_of(&rt, rt.alloc(), &[("A", long.as_bytes())], &[]);
    let fault = FilesFault::BadSource {
        word: 2,
        fault: SourceFault::TooLong,
    };
    assert!(rt; is_fault(&rt, rt.alloc(), &[A], &mut shelf, Some(fault)));
}

const SIZES: [usize; 9] = [0, 1, 255, 256, 65_535, 65_536, 65_537, 100_001, 1_048_576];

// Whether a file of so many bytes is fetched as it is, and a sink takes so many as they are.
fn is_as_it_was(rt: &impl Abort, alloc: Global, len: usize) -> bool {
    let mut text = String::new(alloc);
    put_times(rt, &mut text, " ", len);
    let mut shelf = shelf_of(rt, alloc, &[("A", text.as_bytes())], &[]);
    let fetched = shelf.fetch(alloc, "A").ok();
    let mut sink = MemorySink::new(alloc, Vec::new(alloc), 1_048_576).expect(rt, "memory");
    let put = sink.put(text.as_bytes());
    let is_taken = put.is_ok() & (sink.bytes() == text.as_bytes());
    is_taken & (fetched.as_deref() == Some(text.as_bytes()))
}

#[test]
fn bytes_of_each_size(rt: HostRuntime) {
    for len in SIZES {
        assert!(rt; is_as_it_was(&rt, rt.alloc(), len));
    }
}

// The call of the shelf that fails, what the stores answer, and what the files hold then.
type Stored = (
    u32,
    Result<(), StoreFault>,
    [(&'static str, Option<&'static [u8]>); 3],
);

const STORED: [Stored; 4] = [
    (
        1,
        Err(StoreFault { stored: 0 }),
        [("A", Some(b"a")), ("out/B", None), ("C", Some(b"c"))],
    ),
    (
        2,
        Err(StoreFault { stored: 1 }),
        [("A", Some(b"new")), ("out/B", None), ("C", Some(b"c"))],
    ),
    (
        3,
        Err(StoreFault { stored: 2 }),
        [
            ("A", Some(b"new")),
            ("out/B", Some(b"new")),
            ("C", Some(b"c")),
        ],
    ),
    (
        4,
        Ok(()),
        [
            ("A", Some(b"new")),
            ("out/B", Some(b"new")),
            ("C", Some(b"new")),
        ],
    ),
];

fn three_stores(rt: &impl Abort, alloc: Global) -> Vec<Store<'static>> {
    let mut stores = Vec::new(alloc);
    for name in ["A", "out/B", "C"] {
        let name = String::from_str(alloc, name).expect(rt, "memory");
        stores
            .push(Store { name, text: "new" })
            .expect(rt, "memory");
    }
    stores
}

fn is_stored(
    rt: &impl Abort,
    shelf: &mut MemoryShelf,
    stores: &[Store],
    answer: Result<(), StoreFault>,
) -> bool {
    assert!(rt; stores.len() == 3);
    store_all(stores, shelf) == answer
}

fn assert_held(rt: &impl Abort, shelf: &MemoryShelf, held: &[(&str, Option<&[u8]>)]) {
    for (name, bytes) in held {
        assert!(rt; shelf.bytes_of(name) == *bytes, "{name}");
    }
}

fn assert_stored(rt: &impl Abort, alloc: Global, rows: &[Stored]) {
    let stores = three_stores(rt, alloc);
    for (call, answer, held) in rows {
        let mut shelf = shelf_of(rt, alloc, &[("A", b"a"), ("C", b"c")], &[*call]);
        assert!(rt; is_stored(rt, &mut shelf, stores.as_slice(), *answer));
        assert_held(rt, &shelf, held);
    }
}

#[test]
fn stores_up_to_the_first_that_fails(rt: HostRuntime) {
    assert_stored(&rt, rt.alloc(), &STORED);
}
