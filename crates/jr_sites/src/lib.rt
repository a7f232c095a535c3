//! Sites of a member with their places, and the graph of the way control goes between them: what
//! is handed from who walks trees to who asks about sites. It knows no trees.
#![tactic(auto)]

mod sites;

pub use sites::{PlacedSite, SiteGraph};
