//! What texts are cut into, and what is told of texts that have no items, by the Java Language
//! Specification and this profile.
use crate::reading::{repeat, text_of};
use crate::rows::{cut_at, number};
use jr_lex::{Item, LexFault, TooDeep, is_identifier, lex, measure};
use std::alloc::Global;
use std::process::Abort;

pub(crate) const ROWS: &'static str = "
~# A text, how many items it is cut into, and their kinds with the bytes of each.
~lex  => 0 items
~lex class A{} => \
    5 items Token(Keyword(Class)) 0-5 Blank 5-6 Token(Word) 6-7 Token(Mark(OpenBrace)) 7-8 \
    Token(Mark(CloseBrace)) 8-9
~lex /*/*/; => 2 items Comment 0-5 Token(Mark(Semicolon)) 5-6
~lex /**/; => 2 items Comment 0-4 Token(Mark(Semicolon)) 4-5
~lex /* */ */; => \
    5 items Comment 0-5 Blank 5-6 Token(Mark(Star)) 6-7 Token(Mark(Slash)) 7-8 \
    Token(Mark(Semicolon)) 8-9
~lex ;// => 2 items Token(Mark(Semicolon)) 0-1 Comment 1-3
~lex // a\r\n; => 3 items Comment 0-4 Blank 4-6 Token(Mark(Semicolon)) 6-7
~lex //\r; => 3 items Comment 0-2 Blank 2-3 Token(Mark(Semicolon)) 3-4
~lex // \\\\u => 1 items Comment 0-6
~lex /* \\\\u */ => 1 items Comment 0-9
~lex \"\\\\u\\\"\\'\" => 1 items Token(Text) 0-9
~lex 0 2147483648 => 3 items Token(Int(0)) 0-1 Blank 1-2 Token(Int(2147483648)) 2-12
~lex .... => 2 items Token(Mark(Ellipsis)) 0-3 Token(Mark(Dot)) 3-4
~lex ..a => 3 items Token(Mark(Dot)) 0-1 Token(Mark(Dot)) 1-2 Token(Word) 2-3
~lex ...5 => 2 items Token(Mark(Ellipsis)) 0-3 Token(Int(5)) 3-4
~lex >>>=>>> => \
    2 items Token(Mark(UnsignedShiftRightEquals)) 0-4 Token(Mark(UnsignedShiftRight)) 4-7
~lex ->= => 2 items Token(Mark(Arrow)) 0-2 Token(Mark(Equals)) 2-3
~lex :::=== => \
    4 items Token(Mark(DoubleColon)) 0-2 Token(Mark(Colon)) 2-3 Token(Mark(EqualEqual)) 3-5 \
    Token(Mark(Equals)) 5-6
~lex λέξη=$1_é => 3 items Token(Word) 0-8 Token(Mark(Equals)) 8-9 Token(Word) 9-14
~lex classes null => 3 items Token(Word) 0-7 Blank 7-8 Token(Keyword(Null)) 8-12
~# A text, and its first fault.
~lex /*/ => OpenComment { at: 0 }
~lex class A{/*/} => OpenComment { at: 8 }
~lex /* \\u => OpenComment { at: 0 }
~lex \" => OpenString { at: 0 }
~lex  \"a\n\" => OpenString { at: 1 }
~lex  \"a\\\" => OpenString { at: 1 }
~lex \"\\ => OpenString { at: 0 }
~lex \"\\\n => OpenString { at: 0 }
~lex \"a\\\n\" => Escape { at: 2 }
~lex \"\\\r\n\" => OpenString { at: 0 }
~lex \"\\\\\\u0041\" => Escape { at: 3 }
~lex \"\\0 \\q\" => Escape { at: 1 }
~lex // é\\u => Escape { at: 5 }
~lex // \\\\\\u => Escape { at: 5 }
~lex /*\\ \\u*/ => Escape { at: 4 }
~lex ;\\u => Escape { at: 1 }
~lex ;\\\\u => BadByte { at: 1 }
~lex a\\ => BadByte { at: 1 }
~lex a# => BadByte { at: 1 }
~lex 'a' => BadByte { at: 0 }
~lex  \u{b} => BadByte { at: 1 }
~lex é\u{1a} => BadByte { at: 2 }
~lex a\u{a0} => BadByte { at: 1 }
~lex  08 => BadNumber { at: 1 }
~lex 00 => BadNumber { at: 0 }
~lex 1. => BadNumber { at: 0 }
~lex 1a => BadNumber { at: 0 }
~lex 1é => BadNumber { at: 0 }
~lex a .5 => BadNumber { at: 2 }
~lex ..5 => BadNumber { at: 1 }
~lex 2147483649 => BadNumber { at: 0 }
~lex 99999999999999999999999999 => BadNumber { at: 0 }
~lex 0x1 => BadNumber { at: 0 }
~lex 1_0 => BadNumber { at: 0 }
~lex 1L # /* => BadNumber { at: 0 }
~# Whether a text is an identifier.
~identifier a => true
~identifier $1 => true
~identifier _ => true
~identifier classes => true
~identifier λέξη => true
~identifier Null => true
~identifier  => false
~identifier 1a => false
~identifier class => false
~identifier null => false
~identifier true => false
~identifier a.b => false
~identifier a  => false
~identifier é- => false
~# How many copies of a piece, and the byte at which so many are too deep.
~depth 100 ( => None
~depth 101 ( => Some(100)
~depth 50 [{ => None
~depth 51 [{ => Some(100)
~depth 149 () => None
~depth 300 a  => None
~depth 301 a  => Some(600)
~depth 500 else; => None
~depth 501 else; => Some(2500)
~depth 1000 }; => None
";

fn items_text(rt: &impl Abort, alloc: Global, items: &[Item]) -> String {
    let mut text = format!(in alloc; "{} items", items.len()).expect(rt, "memory");
    for item in items {
        let (from, to) = (item.span.from, item.span.to);
        write!(text, " {:?} {from}-{to}", item.kind).expect(rt, "memory");
    }
    text
}

/// The items of a text, or its first fault.
pub(crate) fn lex_text(rt: &impl Abort, alloc: Global, source: &str) -> String {
    let text = text_of(rt, alloc, source);
    match lex(alloc, &text) {
        Ok(items) => items_text(rt, alloc, &items),
        Err(fault) => format!(in alloc; "{fault:?}").expect(rt, "memory"),
    }
}

/// Whether a text is an identifier.
pub(crate) fn identify(rt: &impl Abort, alloc: Global, source: &str) -> String {
    let is_identifier = is_identifier(source);
    format!(in alloc; "{is_identifier}").expect(rt, "memory")
}

/// The byte at which so many copies of a piece are too deep.
pub(crate) fn too_deep(rt: &impl Abort, alloc: Global, asked: &str) -> String {
    let (times, piece) = cut_at(asked, " ");
    let text = repeat(rt, alloc, piece, number(rt, times), "");
    let items = lex(alloc, &text).expect(rt, "items");
    let at = match measure(&items) {
        Ok(()) => None,
        Err(TooDeep { at }) => Some(at),
    };
    format!(in alloc; "{at:?}").expect(rt, "memory")
}
