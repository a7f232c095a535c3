//! Words, files in memory, and texts. Want of memory ends a test (`expect`): a `?` would leave more
//! to be proved.
use jr_shelf::{MemoryShelf, names_differ};
use std::alloc::Global;
use std::process::Abort;

/// The words that single spaces part.
pub(crate) fn words_of(rt: &impl Abort, alloc: Global, line: &str) -> Vec<String> {
    let mut words = Vec::new(alloc);
    for word in line.split(' ') {
        words.push(text_of(rt, alloc, word)).expect(rt, "memory");
    }
    words
}

/// A shelf of these files, whose calls of these numbers fail.
pub(crate) fn shelf_of(
    rt: &impl Abort,
    alloc: Global,
    held: &[(&str, &[u8])],
    calls: &[u32],
) -> MemoryShelf {
    let mut files = Vec::new(alloc);
    for (name, bytes) in held {
        let name = text_of(rt, alloc, name);
        let bytes = bytes.to_vec(alloc).expect(rt, "memory");
        files.push((name, bytes)).expect(rt, "memory");
    }
    assert!(rt; names_differ(files.as_slice()));
    let calls = calls.to_vec(alloc).expect(rt, "memory");
    MemoryShelf::new(alloc, files, calls, 100_000).expect(rt, "memory")
}

pub(crate) fn text_of(rt: &impl Abort, alloc: Global, text: &str) -> String {
    String::from_str(alloc, text).expect(rt, "memory")
}

/// The text that bytes are.
pub(crate) fn utf8(rt: &impl Abort, alloc: Global, bytes: &[u8]) -> String {
    let bytes = bytes.to_vec(alloc).expect(rt, "memory");
    String::from_utf8(bytes).ok().expect(rt, "a text")
}

pub(crate) fn put(rt: &impl Abort, text: &mut String, piece: &str) {
    text.push_str(piece).expect(rt, "memory");
}

/// So many times a piece is put behind a text.
pub(crate) fn put_times(rt: &impl Abort, text: &mut String, piece: &str, times: usize) {
    for _ in 0..times {
        put(rt, text, piece);
    }
}
