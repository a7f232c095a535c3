//! What can be undone.

use jr_text::Text;

/// A text that a file had, or is to have.
#[derive(Drop)]
pub(crate) struct Change {
    pub file: u32,
    pub text: Text,
}

/// The texts that the files had which one step changed. They are put back from the last to the
/// first.
#[derive(Drop)]
pub(crate) struct Earlier {
    pub changes: Vec<Change>,
}
