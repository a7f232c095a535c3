//! Texts with their items.
ghost use Rattle.jr_lex.specs.Depth.{AreWithin};
ghost use Rattle.jr_lex.specs.Lexes.{Lexes};

use jr_lex::{Item, lex, measure};
use jr_text::Text;
use std::alloc::Global;
use std::process::Abort;

pub(crate) fn text_of(rt: &impl Abort, alloc: Global, text: &str) -> Text {
    Text::new(alloc, text.as_bytes()).expect(rt, "a text")
}

/// The items of a text that is within the limits.
pub(crate) fn items_of(rt: &impl Abort, alloc: Global, text: &Text) -> Vec<Item>
    ensures lexed { Lexes text.now result.items }
    ensures within { AreWithin result.items }
{
    let items = lex(alloc, text).expect(rt, "items");
    measure(items.as_slice()).expect(rt, "tokens within the limits");
    items
}

/// So many copies of a piece are put behind a text.
pub(crate) fn put_times(rt: &impl Abort, text: &mut String, piece: &str, times: u32) {
    for _ in 0..times {
        text.push_str(piece).expect(rt, "memory");
    }
}

/// So many copies of a piece, and what is behind them.
pub(crate) fn repeat(
    rt: &impl Abort,
    alloc: Global,
    piece: &str,
    times: u32,
    behind: &str,
) -> Text {
    let mut whole = String::new(alloc);
    put_times(rt, &mut whole, piece, times);
    put_times(rt, &mut whole, behind, 1);
    text_of(rt, alloc, whole.as_str())
}
