//! Laws on the texts of a program.
ghost use Rattle.jr_images.specs.TextLaws.{NamesHaveNoDot, RowsAreNamed, RenamedTextsRead};

use jr_grammar::reads_are_grammar;

/// The classes, fields and methods of a program that was read from texts have identifiers for their
/// names, and no identifier has a dot (JLS 3.8).
pub fn rows_are_named<A>()
    ensures rows { RowsAreNamed A }
    ensures names { NamesHaveNoDot }
{
    reads_are_grammar::<A>();
}

/// Where the new name and the names of the rows are identifiers, the changes of a renamed file are
/// edits that fit its text, and the spliced text reads as the new tree.
pub fn renamed_texts_read<A>()
    ensures { RenamedTextsRead A }
{}
