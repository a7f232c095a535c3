//! What a part of a program (`jr_members: PartRef`) notes: the lower half of `jr_bind` (JLS 6, 8, 14).
//!
//! One walk over a part makes its tree of types and writes one log; the order of a log means
//! nothing, so each part of the walk only adds. `member_places`, `parameters`: the first place of a
//! member. `statements` goes over statements (`locals`, `stmt_parts`, `stmt_notes`, `stmt_nodes`,
//! `completing`). `part_notes` notes a whole part, over `heads`, `member_notes`, `declared`,
//! `methods`, `supers`, `initializers`, `fronts`. `overriding`, `override_clashes`,
//! `override_words`: whether a method may not stand over one of a superclass; it climbs and asks
//! the table's index, so that work grows with the depth of inheritance and not with the rows.
#![tactic(auto)]

mod completing;
mod declared;
mod fronts;
mod heads;
mod initializers;
mod locals;
mod member_notes;
mod member_places;
mod methods;
mod override_clashes;
mod override_words;
mod overriding;
mod parameters;
pub mod part_notes;
mod statements;
mod stmt_nodes;
mod stmt_notes;
mod stmt_parts;
mod supers;
