use jr_sync::DepKind;

/// A site depends on one before it: the kind, and the numbers of the two.
#[derive(Clone, Copy, PartialEq, Eq, Debug)]
pub struct Dependence {
    pub kind: DepKind,
    /// The site that control meets first.
    pub first: u32,
    /// The site that depends on it. It may be the same.
    pub second: u32,
}
