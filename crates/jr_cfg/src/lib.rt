//! The sites of a member and the edges between them (JLS 14, 15.7).
//!
//! The walk over expressions (`jr_expr_sites`) goes on over statements and members: what it writes
//! for a piece is the steps of the piece's way (`specs/StatementRoutes`, `MemberRoutes`). [`graph`]
//! hands out the sites among them and makes edges of their shapes (`jr_way_graph`).
//!
//! `statements`; `members`; `placing`: sites as they are handed out; `member_graph`.
#![tactic(auto)]

mod faults;
mod member_graph;
mod members;
mod placing;
mod statements;

pub use faults::CfgFault;
pub use jr_expr_sites::Here;
pub use jr_sites::{PlacedSite, SiteGraph};
pub use member_graph::graph;
pub use members::is_synchronized;
pub use placing::placed_sites;
pub use statements::{stmt, stmts};
