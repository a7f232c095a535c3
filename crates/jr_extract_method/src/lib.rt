//! Extract method: what it finds, why it is refused by itself, and what it makes of a program, as a
//! refactoring of jr_plan. It has definitions and laws alone so far.
//!
//! [`extract_method_is_apart`]: its spots are used (`jr_plan: IsFit.apart`).
//!
//! `specs/Holding`: where a list of statements stands in a body. `PieceWays`: the way in which a piece
//! is one part, and which locals are used behind it. `Selecting`: the piece, the locals of both sides.
//! `Results`: what it gives back. `Refusing`: refusals. `Regions`: what is seen around the piece, in it
//! and in the new method's head. `Extracting`: the spots, the transform. `ExtractMethod`: the
//! refactoring.
#![tactic(auto)]

mod laws;

pub use laws::extract_method_is_apart;
