//! Files whose package line differs from the first file's.
ghost use Rattle.std.specs.Prelude.{◌≡◌, ◌<◌, ◌^◌, ◌↔◌, IsTrue, List, length, map, option_map};
ghost use Rattle.jr_ast.specs.View.{word_of, unit_of};
ghost use Rattle.jr_table.specs.declared.kinds.DeclKind.TheVariants as kind;
ghost use Rattle.jr_table.specs.Faults.{HasFault, line_at};
ghost use Rattle.jr_build_declared.specs.Packages.{package_names, line_of, lines_of};
ghost use Rattle.jr_build_places.specs.Places.{place_of, IsEarliest};
ghost use Rattle.jr_table.specs.DeclaredItems.{DeclaredItem};

use jr_ast::{Ident, Unit};
use jr_text::Place;

/// Whether two words are the same.
fn same_word<A>(left: &Ident<A>, right: &Ident<A>) -> bool
    ensures { IsTrue result ↔ ((word_of left.now).text ≡ (word_of right.now).text) }
{
    left.name == right.name
}

/// Whether two package lines have the same names.
fn same_package<A>(left: &[Ident<A>], right: &[Ident<A>]) -> bool
    ensures { IsTrue result
        ↔ (package_names (map word_of left.now) ≡ package_names (map word_of right.now)) }
{
    if left.len() != right.len() {
        return false;
    }
    for (number, word) in left.iter().enumerate() {
        if !same_word(word, &right[number]) {
            return false;
        }
    }
    true
}

/// Where a file's package line stands: at its word, or at 0 where there is none.
fn line_place<A>(names: &[Ident<A>], word: u32) -> u32
    ensures { result ≡ line_at (line_of word (map word_of names.now)) }
{
    if names.is_empty() { 0 } else { word }
}

/// The first file whose package line, or its absence, differs from the first file's.
///
/// `words` has the place of each file's word `package`.
pub fn package_differs<A>(units: &[Unit<A>], words: &[u32]) -> Option<Place>
    requires few { length units.now < 2 ^ 32 }
    requires each { length words.now ≡ length units.now }
    ensures { (declarations : List DeclaredItem) → IsEarliest
        (HasFault (lines_of words.now (map unit_of units.now)) declarations kind.PackageDiffers)
        (option_map place_of result) }
{
    for (file, unit) in units.iter().enumerate() {
        if !same_package(&unit.package, &units[0].package) {
            return Some(Place {
                file: file as u32,
                at: line_place(&unit.package, words[file]),
            });
        }
    }
    None
}
