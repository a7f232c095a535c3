//! Steps of a walk over a tree.

use jr_table::FieldKey;

/// What is done at a site.
#[derive(Drop)]
pub enum What<'a> {
    Reads(u32),
    Writes(u32),
    Loads(&'a FieldKey),
    Stores(&'a FieldKey),
    Enters,
    Exits,
    Creates,
    Checks,
    Calls,
    Loops,
}

/// A site, at a byte of the file.
#[derive(Drop)]
pub struct Site<'a> {
    pub at: u32,
    pub what: What<'a>,
}

/// What a way is made of, written behind its parts (`specs/Steps`).
#[derive(Drop)]
pub enum Step<'a> {
    /// No site.
    Pass,
    /// One site.
    Site(Site<'a>),
    /// The site of a loop, or the entry of a monitor, in front of its parts.
    Opens(Site<'a>),
    /// The last two pieces, one behind the other.
    Row,
    /// One of the last two pieces.
    Fork,
    /// The end of the member.
    Leave,
    /// A loop, of the last two pieces: its condition and its body.
    Turns,
    /// The exit of a monitor, behind the last piece, its block.
    Closes(Site<'a>),
}
