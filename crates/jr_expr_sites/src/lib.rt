//! What expressions do, site by site: steps of their ways (JLS 15), the lower half of `jr_cfg`.
//!
//! One walk over a tree writes one row of steps ([`Step`]), each behind its parts, and those with a
//! site in evaluation order (`specs/Steps`). What it writes for a piece is the steps of the piece's
//! way by `jr_cover: Sites`, where marks are spots (`specs/Routes: Walked`); what is known of a node
//! comes from the table, from what binding says, and from flags of locals that are never null
//! (`specs/KnownFacts`). So a footprint is the same walk, started at a piece.
//!
//! `here`: what is known; `puts`: single steps, and what names do; `aims`: what is read, assigned or
//! bumped; `checks`: what may fail; `targets`; `walk`: expressions; `fields`: rows of fields.
#![tactic(auto)]

mod aims;
mod checks;
mod fields;
mod here;
mod puts;
mod step;
mod targets;
mod walk;

pub use checks::is_never_null;
pub use fields::field_number;
pub use here::{Here, below};
pub use puts::{put, put_nothing, put_row, put_rows, put_site};
pub use step::{Site, Step, What};
pub use walk::{expr, exprs, left, next, operand, target_operand};
