//! Pull up, move static and move instance: what each finds, why it is refused by itself, and what it
//! makes of a program, as refactorings of jr_plan. It has definitions and laws alone so far.
//!
//! [`pulls_up_move`], [`moves_static_move`]: one member's key becomes one that is free, and all
//! others stay. [`pull_up_is_apart`], [`move_static_is_apart`], [`move_instance_is_apart`]: spots are
//! used (`jr_plan: IsFit.apart`).
//!
//! `specs/Selecting`: the declared member, the superclass, refusals. `specs/Places`: keys, rows and
//! regions where a member goes to another class. `specs/Texts`: the text of what goes. `specs/Calls`:
//! calls of a static method through a class.
//! `specs/Moves`: the transform of pull up and move static. `specs/StaticBodies`: what is seen in a body
//! where a parameter stands for `this`; `specs/Delegates`: the call that stays; `specs/InstanceMoves`:
//! the transform of move instance. `specs/PullUp`, `MoveStatic`, `MoveInstance`: the refactorings.
#![tactic(auto)]

mod laws;

pub use laws::{
    move_instance_is_apart, move_static_is_apart, moves_static_move, other_members_stay,
    pull_up_is_apart, pulls_up_move,
};
