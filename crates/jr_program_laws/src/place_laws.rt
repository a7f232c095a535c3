//! Laws of places that no call's clause can carry.
ghost use Rattle.jr_program_laws.specs.PlaceLaws.{
  OneIsBound,
  ItemsBeginOnce,
  FilesHaveParts,
  PartsArePlaced,
  SupersStand,
  FilesAreInOrder,
};

use jr_lex::items_are_placed;
use jr_table::{lookups_are_exact, types_are_exact};
use jr_text::Span;

/// At one byte of a file of a program without faults one declaration is bound at most: no two
/// references begin there (JLS 8, 14, 15).
pub fn one_is_bound()
    ensures { OneIsBound }
{
    items_are_placed();
    lookups_are_exact();
    types_are_exact::<Span>();
}

/// Two items of a text that begin at one byte are one.
pub fn items_begin_once()
    ensures { ItemsBeginOnce }
{
    items_are_placed();
}

/// What a file binds or breaks, one of its parts does: a member, or the head of a class.
pub fn files_have_parts()
    ensures { FilesHaveParts }
{}

/// What a member or the head of a class binds and breaks stands in it, where a token begins: that
/// of a member in its span, that of a head in front of the class's first member. At one place of it
/// one declaration is bound at most. A written `super(..)` has a place, that of the constructor's
/// first word `super` (JLS 8.8.7.1).
pub fn parts_are_placed()
    ensures parts { PartsArePlaced }
    ensures supers { SupersStand }
{
    items_are_placed();
    lookups_are_exact();
    types_are_exact::<Span>();
}

/// The classes of a file, and the members of each, stand one behind the other.
pub fn files_are_in_order()
    ensures { FilesAreInOrder }
{
    items_are_placed();
}
