//! The sites of the piece of a member to which a path leads, and how many come before them.
//!
//! Pieces are a member, and the statements and expressions in it (`specs/Pieces`). [`footprint`]
//! and [`footprint_of`] go down a path and start the walk of `jr_cfg` there. [`sites_before`]
//! counts the sites in front of each part on the way (`specs/Fronts`). [`site_range`] says which
//! sites of the member's graph are those of a piece (`specs/Extents`).
//!
//! `parts`: the parts of an expression; `pieces`; `fronts`,
//! `stmt_fronts`, `member_fronts`: what stands in front of a part; `ranges`: the way down a path;
//! `member_footprints`; `before`; `site_ranges`.
#![tactic(auto)]

mod before;
mod fronts;
mod member_footprints;
mod member_fronts;
mod parts;
mod pieces;
mod ranges;
mod site_ranges;
mod stmt_fronts;

pub use before::sites_before;
pub use member_footprints::{footprint, footprint_of};
pub use site_ranges::{SiteRange, site_range};
