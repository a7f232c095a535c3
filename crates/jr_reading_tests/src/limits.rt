//! Texts of each size up to the limit, and names of each size.
use crate::reading::{put_times, repeat};
use jr_ast::Name;
use jr_lex::{Item, ItemKind, LexFault, Symbol, TokenKind, lex};
use jr_text::Span;
use std::alloc::Global;
use std::process::Abort;

/// Whether so many pieces are cut to their end, into one item or into as many, of which this kind
/// is the last one's.
fn is_cut(rt: &impl Abort, alloc: Global, piece: &str, kind: ItemKind, times: u32) -> bool {
    let text = repeat(rt, alloc, piece, times, "");
    let items = lex(alloc, &text).expect(rt, "items");
    let is_one = piece != ";";
    let len = if is_one { 1 } else { times as usize };
    let from = if is_one { 0 } else { times.wrapping_sub(1) };
    let span = Span { from, to: times };
    let last = items.last().copied();
    (items.len() == len) & (last == Some(Item { kind, span }))
}

/// Whether the fault behind so many pieces of a byte is found.
fn is_found(rt: &impl Abort, alloc: Global, piece: &str, times: u32) -> bool {
    let text = repeat(rt, alloc, piece, times, "#");
    lex(alloc, &text).err() == Some(LexFault::BadByte { at: times })
}

/// Texts of each size up to the limit are cut, and their faults found.
fn assert_sizes(rt: &impl Abort, alloc: Global, piece: &str, kind: ItemKind) {
    for times in [
        1, 255, 256, 65_535, 65_536, 65_537, 100_001, 524_288, 1_048_575,
    ] {
        assert!(rt; is_cut(rt, alloc, piece, kind, times));
        assert!(rt; is_found(rt, alloc, piece, times));
    }
}

/// Whether a name of so many bytes is its bytes, and no other.
fn is_its_bytes(rt: &impl Abort, alloc: Global, len: u32) -> bool {
    let mut text = String::new(alloc);
    put_times(rt, &mut text, "a", len);
    let name = Name::new(alloc, text.as_str()).expect(rt, "memory");
    let same = Name::new(alloc, text.as_str()).expect(rt, "memory");
    let other = Name::new(alloc, "ab").expect(rt, "memory");
    (name.as_str() == text.as_str()) & (name == same) & (name != other)
}

/// Of many items and of one long one.
#[test]
fn sizes_up_to_the_limit(rt: HostRuntime) {
    for len in [0, 1, 255, 256, 65_536, 100_001, 1_048_576] {
        assert!(rt; is_its_bytes(&rt, rt.alloc(), len));
    }
    let semicolon = ItemKind::Token(TokenKind::Mark(Symbol::Semicolon));
    assert_sizes(&rt, rt.alloc(), ";", semicolon);
    assert_sizes(&rt, rt.alloc(), "a", ItemKind::Token(TokenKind::Word));
    assert_sizes(&rt, rt.alloc(), " ", ItemKind::Blank);
}
