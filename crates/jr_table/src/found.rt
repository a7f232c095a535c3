//! What a lookup finds.
use crate::decls::Decl;

/// What the lookup of a name finds.
#[derive(Drop)]
pub enum Found {
    /// This declaration.
    One(Decl),
    Nothing,
    /// Several, of which none is more specific than each other; these are the first two.
    Many(Decl, Decl),
    /// This declaration, which is private elsewhere (JLS 6.6.1).
    NotAccessible(Decl),
    /// This instance declaration, from a static context (JLS 8.1.3).
    FromStatic(Decl),
}
