//! The changes for a word, by what becomes of it.

ghost use Rattle.std.specs.Prelude.{[], ◌∷◌, string_bytes};
ghost use Rattle.jr_rewrite.specs.Respellings.{becomes, cast_text};
ghost use Rattle.jr_rewrite.specs.Rewritten.{change, before, from_to, word_changes};
ghost use Rattle.jr_rewrite.specs.Puts.{before_changes, behind_changes, super_parts, class_changes};
ghost use Rattle.jr_rewrite.specs.RespellingView.{front_view, respelling_view};
ghost use Rattle.jr_rewrite.specs.ChangeView.{Adds};

use crate::changes::Change;
use crate::respellings::{Front, Respelling, cast_front, front_and_word};
use jr_text::Span;
use std::alloc::{AllocError, Global};

/// Puts a change behind all others.
fn put_change(changes: &mut Vec<Change>, span: Span, text: String) -> Result<(), AllocError>
    ensures { Adds result changes.old.items changes.new.items
        (change span (string_bytes text) ∷ []) }
{
    changes.push(Change { span, text })?;
    Ok(())
}

/// Another name alone.
fn put_name(
    alloc: Global,
    changes: &mut Vec<Change>,
    word: Span,
    name: &str,
) -> Result<(), AllocError>
    ensures { Adds result changes.old.items changes.new.items (change word name.now ∷ []) }
{
    let text = String::from_str(alloc, name)?;
    put_change(changes, word, text)
}

/// The change of a word with nothing in front of it: a simple name, a declared name, a type's name.
pub fn put_word(
    alloc: Global,
    changes: &mut Vec<Change>,
    word: Span,
    to: &Respelling,
) -> Result<(), AllocError>
    ensures { Adds result changes.old.items changes.new.items
        (word_changes (becomes (respelling_view to.now)) word) }
{
    let text = front_and_word(alloc, to)?;
    put_change(changes, word, text)
}

/// `((class) ` where an operand begins.
fn put_cast(
    alloc: Global,
    changes: &mut Vec<Change>,
    operand: Span,
    class: &str,
) -> Result<(), AllocError>
    ensures { Adds result changes.old.items changes.new.items
        (change (before operand) (cast_text class.now) ∷ []) }
{
    let start = Span {
        from: operand.from,
        to: operand.from,
    };
    let text = cast_front(alloc, class)?;
    put_change(changes, start, text)
}

/// The change from where the one span begins to where the other ends.
fn put_whole(
    alloc: Global,
    changes: &mut Vec<Change>,
    first: Span,
    last: Span,
    to: &Respelling,
) -> Result<(), AllocError>
    ensures { Adds result changes.old.items changes.new.items
        (word_changes (becomes (respelling_view to.now)) (from_to first last)) }
{
    let span = Span {
        from: first.from,
        to: last.to,
    };
    put_word(alloc, changes, span, to)
}

/// The change of a word behind `super.`, in a node that begins with `super`.
pub fn put_super(
    alloc: Global,
    changes: &mut Vec<Change>,
    node: Span,
    word: Span,
    to: &Respelling,
) -> Result<(), AllocError>
    ensures { Adds result changes.old.items changes.new.items
        (super_parts (respelling_view to.now) node word) }
{
    if to.front.is_same() {
        put_name(alloc, changes, word, to.text)
    } else {
        put_whole(alloc, changes, node, word, to)
    }
}

/// The change of a class's name as a type, behind the name of the class that it is a member of.
/// Where that goes, nothing is to be put for it.
pub fn put_class(
    alloc: Global,
    changes: &mut Vec<Change>,
    outer: Span,
    word: Span,
    to: &Respelling,
) -> Result<(), AllocError>
    ensures { Adds result changes.old.items changes.new.items
        (class_changes (respelling_view to.now) outer word) }
{
    if to.front.drops_class() {
        put_whole(alloc, changes, outer, word, to)
    } else {
        put_name(alloc, changes, word, to.text)
    }
}

/// Of a word behind an operand and a dot: the change in front of those in the operand, if a cast
/// goes around it.
pub fn put_before(
    alloc: Global,
    changes: &mut Vec<Change>,
    operand: Span,
    to: &Respelling,
) -> Result<(), AllocError>
    ensures { Adds result changes.old.items changes.new.items
        (before_changes (front_view to.now.front) operand) }
{
    match to.front {
        Front::ByCast(class) => put_cast(alloc, changes, operand, class),
        Front::Same => Ok(()),
        Front::Alone => Ok(()),
        Front::ByThis => Ok(()),
        Front::BySuper => Ok(()),
        Front::ByCastThis(_) => Ok(()),
        Front::ByClass(_) => Ok(()),
        Front::ByOuterClass(_, _) => Ok(()),
    }
}

/// The change behind those in the operand. Where the operand goes, nothing is to be put for it.
pub fn put_behind(
    alloc: Global,
    changes: &mut Vec<Change>,
    operand: Span,
    word: Span,
    to: &Respelling,
) -> Result<(), AllocError>
    ensures { Adds result changes.old.items changes.new.items
        (behind_changes (respelling_view to.now) operand word) }
{
    if to.front.is_cast() {
        let gap = Span {
            from: operand.to,
            to: word.to,
        };
        put_word(alloc, changes, gap, to)
    } else if to.front.drops_operand() {
        put_whole(alloc, changes, operand, word, to)
    } else {
        put_name(alloc, changes, word, to.text)
    }
}
