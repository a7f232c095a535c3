//! Small programs through the whole way, as theorems: of each text the tree that it reads as, the
//! rows of what this declares, that no member breaks a rule, the resolved code that it is, and a
//! run with its actions and its end, which are those that `java` shows. Texts that are no programs
//! break the rule that is told. Nothing in it is executed.
//!
//! `specs/Shown`: what is said of a text; `Cases`: the programs; `WrongTurns`: the turns that an
//! account of types could take wrong.
#![tactic(auto)]

mod laws;

pub use laws::{
    bumps, counted_loop, dispatch, down, endless, failed_cast, first_values, handed_over,
    initializers, literals, missing_return, monitor, null_receiver, overflow, second_start,
    void_value, volatile_flag, zero_divisor,
};
