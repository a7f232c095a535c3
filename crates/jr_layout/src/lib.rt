//! Where bytes go: line ends and indents, what comes between something put in and what stands
//! beside it, what something removed takes along. It knows texts, places and spans, and nothing of
//! Java.
//!
//! Modules: `lines` (line ends, line starts, indents), `gaps` (what is put in), `removals` (what is
//! taken out), `laws` (laws on public functions with empty bodies: each layout is one alone).
#![tactic(auto)]

mod gaps;
mod laws;
mod lines;
mod removals;

pub use gaps::{class_end, gap_at};
pub use laws::{
    member_has_one_class_end, place_has_one_gap, span_has_one_blank, span_has_one_removal,
    text_has_one_line_end,
};
pub use lines::{LineEnd, indent_at, line_end};
pub use removals::{removal, with_blank};
