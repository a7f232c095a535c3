//! The methods that are renamed with one, and what their new name does to the prelude's methods and
//! to dispatch. It asks the table alone, over rows by number, and knows no bodies.
//!
//! `families`: [`family`] gives the declarations renamed with one. Of a method `tops` climbs to the
//! highest class that declares a method of its name and types, and one walk over the rows takes
//! those in or below it, so no two methods are compared. `preludes`: the method of the prelude that
//! a new name would change. `dispatching`: the first class and method whose dispatch is another.
//! `moves` finds the names that change, `parts` the methods of these names that are parted from
//! another at or above them (`marks`: each climbs up to one that is known to be parted from none),
//! and only where there are some `changes` asks for the first class below one. `dispatch_is_kept`
//! is a law: where no dispatch changes, it goes to the images.
#![tactic(auto)]

mod changes;
mod dispatching;
mod families;
mod marks;
mod moves;
mod parts;
mod preludes;
mod tops;

pub use dispatching::{dispatch_change, dispatch_is_kept};
pub use families::family;
pub use preludes::prelude_method;
