//! Scripts and reports: JSON text to steps, and replies to JSON text. It knows nothing of sessions.
//!
//! What bytes mean as JSON is `serde_json`'s reading. `specs/Rows` has the table of the steps, and
//! says which object is which step; `specs/Scripts` says which bytes are a script, and which fault
//! they have otherwise. `scripts` goes along the elements; `rows` has one function a row of the
//! table, `members` reads one member and searches for surplus ones. `texts`, `refusals` and
//! `reports` write. `laws`: bytes are one script, or have one fault.
#![tactic(auto)]

mod faults;
mod laws;
mod members;
mod refusals;
mod reports;
mod rows;
mod scripts;
mod texts;

pub use faults::ScriptFault;
pub use laws::script_has_one_answer;
pub use refusals::refusal_text;
pub use reports::report_text;
pub use scripts::{MAX_SCRIPT_LEN, MAX_STEPS, read_script};
