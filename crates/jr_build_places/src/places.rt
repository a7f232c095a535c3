//! The earlier of two places.
ghost use Rattle.std.specs.Prelude.{◌≡◌, IsTrue, ◌↔◌, Some, option_map};
ghost use Rattle.jr_table.specs.Faults.{IsUpTo};
ghost use Rattle.jr_build_places.specs.Places.{place_of, IsEarlier, within_file};

use jr_text::Place;

/// Whether one place comes before another, or is it.
fn is_up_to(first: &Place, second: &Place) -> bool
    ensures { IsTrue result ↔ IsUpTo (place_of first.now) (place_of second.now) }
{
    if first.file == second.file {
        first.at <= second.at
    } else {
        first.file < second.file
    }
}

/// The earlier of two places, where there is one.
pub fn earlier(first: Option<Place>, second: Option<Place>) -> Option<Place>
    ensures { IsEarlier (option_map place_of first) (option_map place_of second)
        (option_map place_of result) }
{
    match first {
        None => second,
        Some(one) => Some(earlier_than(one, second)),
    }
}

/// This place, or the other where it is earlier.
fn earlier_than(one: Place, second: Option<Place>) -> Place
    ensures { IsEarlier (Some (place_of one)) (option_map place_of second)
        (Some (place_of result)) }
{
    match second {
        None => one,
        Some(other) => { if is_up_to(&one, &other) { one } else { other } }
    }
}

/// A byte of a file as a place.
pub fn in_file(file: u32, at: Option<u32>) -> Option<Place>
    ensures { option_map place_of result ≡ within_file file at }
{
    match at {
        None => None,
        Some(at) => Some(Place { file, at }),
    }
}
