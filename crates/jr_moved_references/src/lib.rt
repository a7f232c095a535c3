//! Where the references of a renamed program stand: each whose first byte no edit touches is bound,
//! at its moved place, to the image of its declaration. A written `super(..)` is left out as yet.
//! Nothing in it runs.
#![tactic(auto)]

mod laws;

pub use laws::references_move;
