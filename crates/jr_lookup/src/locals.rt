//! Locals and parameters by name.
ghost use Rattle.std.specs.Prelude.{◌≡◌, map, option_map};
ghost use Rattle.jr_table.specs.KeyView.{local_key_of};
ghost use Rattle.jr_table.specs.Scope.{or_later, key_if_named, last_named};
ghost use Rattle.jr_lookup.specs.LocalView.{local_of};

use crate::scope_local::ScopeLocal;
use jr_ast::Name;
use jr_table::LocalKey;

/// This local's key if it has the name, else what was there.
fn later<'a>(last: Option<&'a LocalKey>, local: &'a ScopeLocal, name: &Name) -> Option<&'a LocalKey>
    ensures { option_map (λ k. local_key_of k.now) result
        ≡ or_later (key_if_named name.now (local_of local.now))
        (option_map (λ k. local_key_of k.now) last.entry) }
{
    if local.name.as_str() == name.as_str() {
        Some(&local.key)
    } else {
        last
    }
}

/// The last local that has the name (JLS 6.3, 6.4).
#[tactic(auto, using(crate::proofs::Lasts::or_or), unfolding(jr_table::specs::Scope::last_named))]
pub fn last_local<'a>(locals: &'a [ScopeLocal], name: &Name) -> Option<&'a LocalKey>
    ensures { option_map (λ k. local_key_of k.now) result
        ≡ last_named name.now (map local_of locals.now) }
{
    let mut last = None;
    let mut rest = locals;
    loop {
        match rest.split_first() {
            None => return last,
            Some((first, others)) => {
                last = later(last, first, name);
                rest = others;
            }
        }
    }
}
