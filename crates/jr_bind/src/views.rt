//! A whole program that has no fault and no error, as it is lent to who reads it.
ghost use Rattle.std.specs.Prelude.{◌≡◌, ◌<◌, Some, IfSome, length, map, slice_get, option_map};
ghost use Rattle.jr_lex.specs.Lexes.{Lexes};
ghost use Rattle.jr_ast.specs.View.{unit_of};
ghost use Rattle.jr_bind.specs.Programs.{Program, IsProgram, units_of};

use crate::bounds::Bound;
use jr_ast::Unit;
use jr_lex::Item;
use jr_table::Table;
use jr_text::{Mark, Text};

/// A whole program without faults and errors: its files, its table, and what binding knows of each
/// of its members. Files have the numbers that they have in the session; members stand in file and
/// text order.
pub trait View<A: Mark> {
    /// The program.
    ghost program: { Self → Program A };

    /// What holds of the program, for who needs it in a proof.
    fn keeps_program(&self)
        ensures { IsProgram A.span_from A.fits_at (program self.now) };

    /// How many files there are.
    fn file_count(&self) -> u32
        ensures { result ≡ length (program self.now).files };

    /// The name of a file.
    fn name(&self, file: u32) -> &str
        requires { file < length (program self.now).files }
        ensures { option_map (λ f. f.name) (slice_get (program self.now).files file)
            ≡ Some result.now };

    /// The text of a file.
    fn text(&self, file: u32) -> &Text
        requires { file < length (program self.now).files }
        ensures { option_map (λ f. f.text) (slice_get (program self.now).files file)
            ≡ Some result.now };

    /// The items of a file's text: its tokens, blanks and comments.
    fn items(&self, file: u32) -> &[Item]
        requires { file < length (program self.now).files }
        ensures { IfSome (slice_get (program self.now).files file)
            (λ f. Lexes f.text result.now) };

    /// What the files read as.
    fn units(&self) -> &[Unit<A>]
        ensures { map unit_of result.now ≡ units_of (program self.now) };

    /// The declarations.
    fn table(&self) -> &Table
        ensures { result.now ≡ (program self.now).rows };

    /// How many members are written.
    fn bound_count(&self) -> u32
        ensures { result ≡ length (program self.now).bounds };

    /// What binding knows of the member of a number.
    fn bound(&self, number: u32) -> &Bound
        requires { number < length (program self.now).bounds }
        ensures { slice_get (program self.now).bounds number ≡ Some result.now };
}
