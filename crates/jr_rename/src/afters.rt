//! What is known of the table of the program that a rename makes.
ghost use Rattle.std.specs.Prelude.{◌≡◌, IsTrue};
ghost use Rattle.jr_table.specs.KeyView.{decl_of};
ghost use Rattle.jr_rename_laws.specs.PlanLaws.{IsNoClass};
ghost use Rattle.jr_rename.specs.Afters.{TellsNothing};

use jr_table::{Decl, Table};
use std::mem;

/// What is known of the table of the program that a rename makes.
#[derive(Drop)]
pub enum After {
    /// Nothing.
    Unknown,
    /// It has the rows of the program before: a local or parameter gets the name.
    Same,
    /// This is it: a field gets the name, or methods do.
    Images(Table),
    /// A class gets the name: its rows are to be compared with the new program's.
    Maybe(Table),
}

/// Lets it go. Where it is dropped in the middle of another function, that function's proof goes
/// through its variants.
pub(crate) fn forget(after: After) {
    drop(after)
}

/// Writes what is known.
pub(crate) fn put(after: &mut After, known: After)
    ensures { after.new ≡ known }
{
    forget(mem::replace(after, known))
}

/// The same as something that is to be compared.
fn compared(after: After) -> After
    ensures { TellsNothing result }
{
    match after {
        After::Unknown => After::Unknown,
        After::Same => After::Unknown,
        After::Images(table) => After::Maybe(table),
        After::Maybe(table) => After::Maybe(table),
    }
}

/// Takes back that it is known: it is to be compared.
pub(crate) fn doubt(after: &mut After)
    ensures { TellsNothing after.new }
{
    let known = mem::replace(after, After::Unknown);
    put(after, compared(known))
}

/// Whether the declaration is neither a class nor a constructor.
pub(crate) fn is_no_class(decl: &Decl) -> bool
    ensures { IsTrue result → IsNoClass (decl_of decl.now) }
{
    match decl {
        Decl::Local(_) => true,
        Decl::Class(_) => false,
        Decl::Field(_) => true,
        Decl::Method(_) => true,
        Decl::Ctor(_) => false,
    }
}
