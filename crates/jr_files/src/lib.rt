//! Files of a run, over any shelf: sources are fetched, and changed texts are stored. It knows no
//! Java.
//!
//! `specs/Sources` says which files can be the sources of a run, and which fault others have.
//! `fetches`: sources in order, with the running total, and their bytes beside them. `stores`:
//! texts are stored in order, without memory. `faults`.
#![tactic(auto)]

mod faults;
mod fetches;
mod stores;

pub use faults::{FilesFault, SourceFault, StoreFault};
pub use fetches::{Fetched, MAX_FILES, MAX_TOTAL_LEN, fetch_sources};
pub use stores::{Store, store_all};
