//! A program beside what becomes of it.
ghost use Rattle.std.specs.Prelude.{◌≡◌};
ghost use Rattle.jr_new_words.specs.Mappings.{renamed};
ghost use Rattle.jr_new_words.specs.MappingView.{keys_of};
ghost use Rattle.jr_new_words.specs.Scopes.{rows_in, renaming_in};

use crate::mappings::KeyMapping;
use jr_images::NewName;
use jr_table::Table;

/// A program, what becomes of it, and what becomes of its keys.
#[derive(Clone, Copy, Drop)]
pub struct Tables<'a> {
    pub before: &'a Table,
    pub after: &'a Table,
    pub keys: KeyMapping<'a>,
}

/// A program, the program with the images of its rows, and the declarations that get another name.
#[derive(Clone, Copy, Drop)]
pub struct Programs<'a> {
    pub before: &'a Table,
    pub after: &'a Table,
    pub name: &'a NewName,
}

/// The tables of a rename.
pub fn tables_of<'a>(programs: &Programs<'a>) -> Tables<'a>
    ensures before { result.before.now ≡ rows_in programs.now }
    ensures after { result.after.now ≡ programs.now.after.now }
    ensures keys { keys_of result.keys ≡ renamed (renaming_in programs.now) }
{
    Tables {
        before: programs.before,
        after: programs.after,
        keys: KeyMapping::Renamed(programs.name),
    }
}
