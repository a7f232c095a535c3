//! What is chosen for a word.
ghost use Rattle.std.specs.Prelude.{◌≡◌};
ghost use Rattle.jr_rewrite.specs.RespellingView.{front_view, respelling_view};
ghost use Rattle.jr_new_words.specs.ChoiceView.{front_of, chosen_of};

use jr_ast::Name;
use jr_rewrite::{Front, Respelling};
use jr_table::{Decl, Found};

/// What stands in front of a word; a class goes by its words.
#[derive(Drop)]
pub enum ChosenFront {
    /// What stood there.
    Same,
    /// Nothing: a class without what stood in front of its dot.
    Alone,
    /// `this.`
    ByThis,
    /// `super.`
    BySuper,
    /// `((K) this).`
    ByCastThis(Name),
    /// `K.`
    ByClass(Name),
    /// `Outer.K.`
    ByOuterClass(Name, Name),
    /// `((K) e).`, where e stood there.
    ByCast(Name),
}

/// A word's new text, and what stands in front of it.
#[derive(Drop)]
pub struct Chosen {
    pub text: Name,
    pub front: ChosenFront,
}

/// A reference that no spelling binds: where its word begins, the declaration that it was bound to,
/// and what it finds as it is asked.
#[derive(Drop)]
pub struct Lost {
    pub at: u32,
    pub declaration: Decl,
    pub found: Found,
}

/// What is chosen for a word.
#[derive(Drop)]
pub enum Choice {
    Stays,
    Becomes(Chosen),
    Loses(Lost),
}

impl ChosenFront {
    /// The same, by the words of the classes.
    pub fn as_front(&self) -> Front<'_>
        ensures { front_view result ≡ front_of self.now }
    {
        match self {
            ChosenFront::Same => Front::Same,
            ChosenFront::Alone => Front::Alone,
            ChosenFront::ByThis => Front::ByThis,
            ChosenFront::BySuper => Front::BySuper,
            ChosenFront::ByCastThis(class) => Front::ByCastThis(class.as_str()),
            ChosenFront::ByClass(class) => Front::ByClass(class.as_str()),
            ChosenFront::ByOuterClass(outer, class) => {
                Front::ByOuterClass(outer.as_str(), class.as_str())
            }
            ChosenFront::ByCast(class) => Front::ByCast(class.as_str()),
        }
    }
}

impl Chosen {
    /// The same, as the changes of a text are put by.
    pub fn as_respelling(&self) -> Respelling<'_>
        ensures { respelling_view result ≡ chosen_of self.now }
    {
        Respelling {
            text: self.text.as_str(),
            front: self.front.as_front(),
        }
    }
}
