//! The texts of faults, which `thiserror` derives.
use crate::rows::assert_same;
use jr_ast::Name;
use jr_files::{FilesFault, SourceFault, StoreFault};
use jr_script::ScriptFault;
use jr_session::BeginFault;
use jr_words::WordsFault;
use std::alloc::Global;
use std::process::Abort;

fn assert_source(rt: &impl Abort, alloc: Global, fault: SourceFault, expected: &str) {
    let told = fault.to_string(alloc).expect(rt, "memory");
    assert_same(rt, told.as_str(), expected);
}

fn assert_files(rt: &impl Abort, alloc: Global, fault: FilesFault, expected: &str) {
    let told = fault.to_string(alloc).expect(rt, "memory");
    assert_same(rt, told.as_str(), expected);
}

fn assert_of_files(rt: &impl Abort, alloc: Global) {
    let many = SourceFault::TooMany { count: 257 };
    assert_source(rt, alloc, many, "257 files are too many");
    assert_source(rt, alloc, SourceFault::TooLong, "the file is too long");
    let text = SourceFault::NotUtf8 { valid: 9 };
    let expected = "the file is no text behind its first 9 bytes";
    assert_source(rt, alloc, text, expected);
    let long = SourceFault::TotalTooLong { len: 8_388_609 };
    assert_source(rt, alloc, long, "8388609 bytes are too many");
    let unread = FilesFault::Unread { word: 3 };
    assert_files(rt, alloc, unread, "the file of the word 3 cannot be read");
    assert_files(rt, alloc, FilesFault::Memory, "out of memory");
    let fault = SourceFault::NotUtf8 { valid: 9 };
    assert_files(
        rt,
        alloc,
        FilesFault::BadSource { word: 2, fault },
        "the file of the word 2 is no source: the file is no text behind its first 9 bytes",
    );
    let told = StoreFault { stored: 1 }
        .to_string(alloc)
        .expect(rt, "memory");
    assert_same(
        rt,
        told.as_str(),
        "no file can be written behind the first 1",
    );
}

fn assert_script(rt: &impl Abort, alloc: Global, fault: &ScriptFault, expected: &str) {
    let told = fault.to_string(alloc).expect(rt, "memory");
    assert_same(rt, told.as_str(), expected);
}

fn assert_begin(rt: &impl Abort, alloc: Global, fault: &BeginFault, expected: &str) {
    let told = fault.to_string(alloc).expect(rt, "memory");
    assert_same(rt, told.as_str(), expected);
}

fn assert_words(rt: &impl Abort, alloc: Global, fault: &WordsFault, expected: &str) {
    let told = fault.to_string(alloc).expect(rt, "memory");
    assert_same(rt, told.as_str(), expected);
}

fn assert_of_scripts(rt: &impl Abort, alloc: Global) {
    assert_words(rt, alloc, &WordsFault::Usage, "the words mean no command");
    assert_words(rt, alloc, &WordsFault::Memory, "out of memory");
    assert_script(rt, alloc, &ScriptFault::TooLong, "the script is too long");
    assert_script(rt, alloc, &ScriptFault::NotJson, "the script is no JSON");
    assert_script(rt, alloc, &ScriptFault::NotAList, "the script is no list");
    let many = ScriptFault::TooMany { count: 1_001 };
    assert_script(rt, alloc, &many, "1001 steps are too many");
    let member = Name::new(alloc, "at").expect(rt, "memory");
    let row = ScriptFault::NotAScript { step: 7, member };
    assert_script(rt, alloc, &row, "step 7 is none, by its member at");
    assert_script(rt, alloc, &ScriptFault::Memory, "out of memory");
}

fn assert_of_sessions(rt: &impl Abort, alloc: Global) {
    let many = BeginFault::TooMany { count: 257 };
    assert_begin(rt, alloc, &many, "257 files are too many");
    let same = BeginFault::SameName {
        first: 0,
        second: 2,
    };
    assert_begin(rt, alloc, &same, "the files 0 and 2 have one name");
    let long = BeginFault::TotalTooLong { len: 8_388_609 };
    assert_begin(rt, alloc, &long, "8388609 bytes are too many");
    assert_begin(rt, alloc, &BeginFault::Memory, "out of memory");
}

#[test]
fn faults_as_texts(rt: HostRuntime) {
    assert_of_files(&rt, rt.alloc());
    assert_of_scripts(&rt, rt.alloc());
    assert_of_sessions(&rt, rt.alloc());
}
