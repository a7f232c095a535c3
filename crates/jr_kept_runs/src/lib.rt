//! A rename keeps runs: the code of what it rewrites is the image of the old code (`jr_image_code`),
//! as the case of one region without spots. Laws alone; nothing in it is executed.
//!
//! `specs/KeepsRuns`: what is kept of runs, whatever becomes of keys: whatever resolved programs
//! (`jr_code`) the old and the new sources are, they are exactly alike (`jr_runs: AlikeExactly`),
//! static fields begin with images, and histories are the same (`jr_histories: SameHistories`).
//! `KeysTo`: what becomes of keys by a renaming; `TablesAgree`, `CastsAgree`: what is asked of the
//! two tables. Rename is the first user: it changes no statement list.
#![tactic(auto)]

mod laws;

pub use laws::{renames_keep_histories, renames_keep_runs};
