//! Declared names.
ghost use Rattle.std.specs.Prelude.{◌≡◌, IfOk};
ghost use Rattle.jr_table.specs.Decls.{local_decl};
ghost use Rattle.jr_table.specs.KeyView.{member_key_of};
ghost use Rattle.jr_scopes.specs.Helds.{key_of};
ghost use Rattle.jr_rewrite.specs.Rewrites.{declared_by};
ghost use Rattle.jr_images.specs.Spelling as pure;
ghost use Rattle.jr_new_words.specs.ChoiceView.{choice_of};
ghost use Rattle.jr_new_words.specs.Mappings.{name_by};
ghost use Rattle.jr_new_words.specs.MappingView.{keys_of};

use crate::choices::Choice;
use crate::choosing::renaming;
use crate::mappings::{KeyMapping, local_name, member_name};
use jr_ast::Name;
use jr_table::MemberKey;
use std::alloc::{AllocError, Global};

/// The choice for the word that is the member's own name: a constructor's declares its class (JLS
/// 8.8).
pub fn member_choice(
    alloc: Global,
    keys: &KeyMapping<'_>,
    key: &MemberKey,
    name: &Name,
) -> Result<Choice, AllocError>
    ensures { IfOk result (λ h. choice_of h ≡ pure.renamed name.now
        (name_by (keys_of keys.now) (declared_by (member_key_of key.now)) name.now)) }
{
    renaming(alloc, name, member_name(keys, key, name))
}

/// The choice for the word that declares the local or parameter of this number of the member.
pub fn local_choice(
    alloc: Global,
    keys: &KeyMapping<'_>,
    member: &MemberKey,
    number: u32,
    name: &Name,
) -> Result<Choice, AllocError>
    ensures { IfOk result (λ h. choice_of h ≡ pure.renamed name.now
        (name_by (keys_of keys.now) (local_decl (key_of (member_key_of member.now) number))
        name.now)) }
{
    renaming(alloc, name, local_name(keys, member, number, name))
}
