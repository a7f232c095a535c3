//! The texts of faults, which `thiserror` derives.
use crate::edits;
use crate::rows::assert_same;
use jr_build::BuildFault;
use jr_lex::{LexFault, TooDeep};
use jr_pexpr::ParseFault;
use jr_table::DeclKind;
use std::alloc::Global;
use std::process::Abort;

fn assert_lexical(rt: &impl Abort, alloc: Global, fault: LexFault, expected: &str) {
    let told = fault.to_string(alloc).expect(rt, "memory");
    assert_same(rt, told.as_str(), expected);
}

fn assert_of_texts(rt: &impl Abort, alloc: Global) {
    let byte = LexFault::BadByte { at: 7 };
    let expected = "no item begins with the character at byte 7";
    assert_lexical(rt, alloc, byte, expected);
    let comment = LexFault::OpenComment { at: 7 };
    assert_lexical(rt, alloc, comment, "the comment at byte 7 doesn't end");
    let string = LexFault::OpenString { at: 7 };
    assert_lexical(rt, alloc, string, "the string at byte 7 doesn't end");
    let escape = LexFault::Escape { at: 7 };
    let expected = "the escape at byte 7 is none of this profile";
    assert_lexical(rt, alloc, escape, expected);
    let number = LexFault::BadNumber { at: 7 };
    let expected = "the number at byte 7 is none of this profile";
    assert_lexical(rt, alloc, number, expected);
    assert_lexical(rt, alloc, LexFault::Memory, "out of memory");
    let deep = TooDeep { at: 7 }.to_string(alloc).expect(rt, "memory");
    assert_same(rt, deep.as_str(), "the text is too deep at byte 7");
}

fn assert_syntax(rt: &impl Abort, alloc: Global, fault: ParseFault, expected: &str) {
    let told = fault.to_string(alloc).expect(rt, "memory");
    assert_same(rt, told.as_str(), expected);
}

fn assert_declared(rt: &impl Abort, alloc: Global, fault: &BuildFault, expected: &str) {
    let told = fault.to_string(alloc).expect(rt, "memory");
    assert_same(rt, told.as_str(), expected);
}

fn assert_of_programs(rt: &impl Abort, alloc: Global) {
    let syntax = ParseFault::Syntax { at: 7 };
    let expected = "no tree's spelling goes on at byte 7";
    assert_syntax(rt, alloc, syntax, expected);
    assert_syntax(rt, alloc, ParseFault::Memory, "out of memory");
    let cycle = BuildFault::At {
        file: 1,
        at: 7,
        kind: DeclKind::Cycle,
    };
    assert_declared(rt, alloc, &cycle, "Cycle in file 1 at byte 7");
    assert_declared(rt, alloc, &BuildFault::Memory, "out of memory");
}

#[test]
fn faults_as_texts(rt: HostRuntime) {
    edits::assert_faults(&rt, rt.alloc());
    assert_of_texts(&rt, rt.alloc());
    assert_of_programs(&rt, rt.alloc());
}
