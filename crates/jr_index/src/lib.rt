//! Numbers, their parents and their names: which lie on a cycle, and which stands under a name. It
//! stands on no crate and knows no Java.
//!
//! `cycles`: which numbers of a list of parents lie on a cycle, and the first that does. A walk
//! upwards stamps each number, a second one goes round a cycle that is new, so each number is
//! passed twice at most. `names`: numbers by name; `index`: by owner and name, names borrowed;
//! `name_table`: the same with names of its own, so that it can be kept; `linked`: all numbers of a
//! place (an owner, if there is one, and a name), in order.
//!
//! `laws`: `ways_come_early`. What a way upwards ever comes to, it comes to in fewer steps than
//! there are numbers. A loop of that many turns misses nothing although there are cycles.
#![tactic(auto)]

mod cycles;
mod index;
mod laws;
mod linked;
mod name_table;
mod names;

pub use cycles::{first_on_cycle, on_cycle};
pub use index::Index;
pub use laws::ways_come_early;
pub use linked::{Linked, Place};
pub use name_table::NameTable;
pub use names::Names;
