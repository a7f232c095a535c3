//! The changes of a text for words that are spelled anew.
use crate::rows::assert_same;
use jr_rewrite::{
    Change, Front, Respelling, put_before, put_behind, put_class, put_super, put_word,
};
use jr_text::Span;
use std::alloc::Global;
use std::process::Abort;

/// The changes, one behind the other: where each begins and ends, and its text.
fn show_changes(rt: &impl Abort, alloc: Global, changes: &[Change]) -> String {
    let mut text = String::new(alloc);
    for change in changes {
        let (from, to) = (change.span.from, change.span.to);
        write!(&mut text, "{from}-{to} {}|", change.text).expect(rt, "memory");
    }
    text
}

/// The word x of `a.x`.
fn behind_a(rt: &impl Abort, alloc: Global, front: Front) -> String {
    let operand = Span { from: 0, to: 1 };
    let word = Span { from: 2, to: 3 };
    let to = Respelling { text: "y", front };
    let mut changes = Vec::new(alloc);
    put_before(alloc, &mut changes, operand, &to).expect(rt, "memory");
    put_behind(alloc, &mut changes, operand, word, &to).expect(rt, "memory");
    show_changes(rt, alloc, &changes)
}

#[test]
fn behind_a_dot(rt: HostRuntime) {
    let same = behind_a(&rt, rt.alloc(), Front::Same);
    assert_same(&rt, same.as_str(), "2-3 y|");
    let cast = behind_a(&rt, rt.alloc(), Front::ByCast("K"));
    assert_same(&rt, cast.as_str(), "0-0 ((K) |1-3 ).y|");
    let outer = behind_a(&rt, rt.alloc(), Front::ByOuterClass("O", "K"));
    assert_same(&rt, outer.as_str(), "0-3 O.K.y|");
}

/// `super.x`, `A.B` as a type, and a word by itself.
fn others(rt: &impl Abort, alloc: Global) -> String {
    let node = Span { from: 0, to: 7 };
    let word = Span { from: 6, to: 7 };
    let mut changes = Vec::new(alloc);
    let on_cast = Respelling {
        text: "y",
        front: Front::ByCastThis("K"),
    };
    put_super(alloc, &mut changes, node, word, &on_cast).expect(rt, "memory");
    let alone = Respelling {
        text: "B",
        front: Front::Alone,
    };
    put_class(alloc, &mut changes, node, word, &alone).expect(rt, "memory");
    let on_this = Respelling {
        text: "y",
        front: Front::ByThis,
    };
    put_word(alloc, &mut changes, word, &on_this).expect(rt, "memory");
    show_changes(rt, alloc, &changes)
}

#[test]
fn other_words(rt: HostRuntime) {
    let all = others(&rt, rt.alloc());
    assert_same(&rt, all.as_str(), "0-7 ((K) this).y|0-7 B|6-7 this.y|");
}
