//! Shapes of ways.

/// What a way is made of, written behind its parts. A site has the number of those before it.
#[derive(Clone, Copy, Drop)]
pub enum Shape {
    /// No site.
    Pass,
    /// One site.
    Site,
    /// The site of a loop, or the entry of a monitor, in front of its parts.
    Opens,
    /// The last two pieces, one behind the other.
    Row,
    /// One of the last two pieces.
    Fork,
    /// The end of the member.
    Leave,
    /// A loop, of the last two pieces: its condition and its body.
    Turns,
    /// The exit of a monitor, behind the last piece, its block.
    Closes,
}
