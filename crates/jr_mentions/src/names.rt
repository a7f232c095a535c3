//! The names by which two programs differ.
ghost use Rattle.std.specs.Prelude.{◌≡◌, ◌↔◌, IfSome, IfNone, IsTrue, [], ◌∷◌};
ghost use Rattle.jr_mentions.specs.Apart.{is_among, AreAmong};
ghost use Rattle.jr_mentions.specs.ApartView.{names_in, Adds};
ghost use Rattle.jr_mentions.specs.Settling.{Settles, RulesOut};

use jr_ast::Name;

#[derive(Clone, Copy, Drop)]
pub(crate) struct Pair<'a> {
    pub old: &'a Name,
    pub new: &'a Name,
}

/// Names of fields and methods by which two programs differ: none, or two.
#[derive(Clone, Copy, Drop)]
pub struct Apart<'a> {
    pub(crate) pair: Option<Pair<'a>>,
}

impl<'a> Apart<'a> {
    /// No names.
    pub(crate) fn none() -> Apart<'a>
        ensures { names_in result ≡ [] }
    {
        Apart { pair: None }
    }

    /// These two.
    pub(crate) fn of(old: &'a Name, new: &'a Name) -> Apart<'a>
        ensures { names_in result ≡ old.now ∷ new.now ∷ [] }
    {
        Apart {
            pair: Some(Pair { old, new }),
        }
    }

    /// Whether there are none.
    pub fn is_none(&self) -> bool
        ensures { IsTrue result ↔ (names_in self.now ≡ []) }
    {
        match &self.pair {
            None => true,
            Some(_) => false,
        }
    }

    /// Whether the name is one of them.
    pub fn has(&self, name: &Name) -> bool
        ensures { result ≡ is_among (names_in self.now) name.now }
    {
        match &self.pair {
            None => false,
            Some(pair) => (pair.old == name) | (pair.new == name),
        }
    }

    /// These names, of which both are; where there are none yet, these two.
    pub(crate) fn adding(&self, old: &'a Name, new: &'a Name) -> Option<Apart<'a>>
        ensures some { IfSome result (λ a. Adds (names_in self.now) (names_in a) old.now new.now) }
        ensures settles { IfSome result (λ a. (old.now ≡ new.now → ⊥)
            → Settles (names_in self.now) (names_in a) (λ ns. AreAmong ns old.now new.now)) }
        ensures none { IfNone result
            (RulesOut (names_in self.now) (λ ns. AreAmong ns old.now new.now)) }
    {
        if self.is_none() {
            return Some(Apart::of(old, new));
        }
        let both = self.has(old) & self.has(new);
        if both { Some(*self) } else { None }
    }
}
