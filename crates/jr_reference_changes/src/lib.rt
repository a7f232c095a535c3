//! What a rename changes: its references, its declarations and its texts, as sets that a reader can
//! check. Nothing in it runs.
#![tactic(auto)]

mod laws;

pub use laws::{
    families_are_kept, families_are_whole, fronts_stay, plans_are_of_places, plans_change_names,
};
