//! What binding knows of a member.
ghost use Rattle.std.specs.Prelude.{◌≡◌, ℕ, List, Option, option_map};
ghost use Rattle.jr_table.specs.Keys as keys;
ghost use Rattle.jr_table.specs.Decls as pure;
ghost use Rattle.jr_table.specs.TypeView.{ty_of};
ghost use Rattle.jr_table.specs.KeyView.{member_key_of, decl_of};

use crate::decls::{Decl, MemberKey};
use crate::types::Ty;
use jr_ast::Path;

/// What is known of one member: what its references mean, and the types of its expressions.
pub trait Facts {
    /// The member's key.
    ghost key: { Self → pure.MemberKey };

    /// What the reference that begins at this byte of the member means.
    ghost decls: { Self → ℕ → Option pure.Decl };

    /// The type of the expression to which this path leads from the member.
    ghost types: { Self → List ℕ → Option keys.Ty };

    /// The member's key.
    fn member(&self) -> &MemberKey
        ensures { member_key_of result.now ≡ key self.now };

    /// What the reference at `at` means; `at` is counted from the member's first byte.
    fn decl(&self, at: u32) -> Option<&Decl>
        ensures { option_map (λ d. decl_of d.now) result ≡ decls self.now at };

    /// The type of the expression to which the path leads from the member.
    fn ty(&self, path: &Path) -> Option<&Ty>
        ensures { option_map (λ t. ty_of t.now) result ≡ types self.now path.now.steps.items };
}
