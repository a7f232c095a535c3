//! What a lookup finds, by the numbers of rows.

/// What the lookup of a name finds, by the numbers of rows.
#[derive(Clone, Copy, PartialEq, Eq, Debug, Drop)]
pub enum Answer {
    /// The declaration of this row.
    One(u32),
    Nothing,
    /// Several, of which none is more specific than each other; these are the first two.
    Many(u32, u32),
    /// The declaration of this row, which is private elsewhere (JLS 6.6.1).
    NotAccessible(u32),
    /// The instance declaration of this row, where there is no object (JLS 8.1.3).
    FromStatic(u32),
}
