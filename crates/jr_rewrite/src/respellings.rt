//! What becomes of a word.

ghost use Rattle.std.specs.Prelude.{◌≡◌, ◌++◌, IfOk, string_bytes};
ghost use Rattle.jr_rewrite.specs.Respellings as Respellings;
ghost use Rattle.jr_rewrite.specs.Respellings.{front_text, cast_text, is_respelled};
ghost use Rattle.jr_rewrite.specs.Rewritten.{drops_operand};
ghost use Rattle.jr_rewrite.specs.Puts.{is_cast, is_same, drops_class};
ghost use Rattle.jr_rewrite.specs.RespellingView.{front_view, respelling_view};

use std::alloc::{AllocError, Global};

/// What stands in front of a word; a class goes by its words.
#[derive(Clone, Copy, Debug)]
pub enum Front<'a> {
    /// What stood there.
    Same,
    /// Nothing: a class without what stood in front of its dot.
    Alone,
    /// `this.`
    ByThis,
    /// `super.`
    BySuper,
    /// `((K) this).`
    ByCastThis(&'a str),
    /// `K.`
    ByClass(&'a str),
    /// `Outer.K.`
    ByOuterClass(&'a str, &'a str),
    /// `((K) e).`, where e stood there.
    ByCast(&'a str),
}

/// A word's new text, and what stands in front of it.
#[derive(Clone, Copy, Debug)]
pub struct Respelling<'a> {
    pub text: &'a str,
    pub front: Front<'a>,
}

impl<'a> Front<'a> {
    /// Whether what stood in front of the dot goes.
    pub fn drops_operand(&self) -> bool
        ensures { result ≡ drops_operand (front_view self.now) }
    {
        match self {
            Front::Same => false,
            Front::Alone => true,
            Front::ByThis => true,
            Front::BySuper => true,
            Front::ByCastThis(_) => true,
            Front::ByClass(_) => true,
            Front::ByOuterClass(_, _) => true,
            Front::ByCast(_) => false,
        }
    }

    /// Whether a cast goes around what stood there.
    pub(crate) fn is_cast(&self) -> bool
        ensures { result ≡ is_cast (front_view self.now) }
    {
        match self {
            Front::ByCast(_) => true,
            Front::Same => false,
            Front::Alone => false,
            Front::ByThis => false,
            Front::BySuper => false,
            Front::ByCastThis(_) => false,
            Front::ByClass(_) => false,
            Front::ByOuterClass(_, _) => false,
        }
    }

    /// Whether what stood there stays.
    pub(crate) fn is_same(&self) -> bool
        ensures { result ≡ is_same (front_view self.now) }
    {
        match self {
            Front::Same => true,
            Front::Alone => false,
            Front::ByThis => false,
            Front::BySuper => false,
            Front::ByCastThis(_) => false,
            Front::ByClass(_) => false,
            Front::ByOuterClass(_, _) => false,
            Front::ByCast(_) => false,
        }
    }

    /// Whether the class that stood in front of a class as a type goes.
    pub fn drops_class(&self) -> bool
        ensures { result ≡ drops_class (front_view self.now) }
    {
        match self {
            Front::Same => false,
            Front::Alone => true,
            Front::ByThis => false,
            Front::BySuper => false,
            Front::ByCastThis(_) => false,
            Front::ByClass(_) => true,
            Front::ByOuterClass(_, _) => false,
            Front::ByCast(_) => false,
        }
    }

    /// Whether the word is spelled otherwise than with another name alone.
    pub fn is_respelled(&self) -> bool
        ensures { result ≡ is_respelled (front_view self.now) }
    {
        match self {
            Front::Same => false,
            Front::Alone => true,
            Front::ByThis => true,
            Front::BySuper => true,
            Front::ByCastThis(_) => true,
            Front::ByClass(_) => true,
            Front::ByOuterClass(_, _) => true,
            Front::ByCast(_) => true,
        }
    }
}

/// `((class) `
pub(crate) fn cast_front(alloc: Global, class: &str) -> Result<String, AllocError>
    ensures { IfOk result (λ s. string_bytes s ≡ cast_text class.now) }
{
    format!(in alloc; "(({class}) ")
}

/// `((class) this).text`
fn on_cast_this(alloc: Global, class: &str, text: &str) -> Result<String, AllocError>
    ensures { IfOk result (λ s. string_bytes s
        ≡ front_text (Respellings.by_cast_this class.now) ++ text.now) }
{
    format!(in alloc; "(({class}) this).{text}")
}

/// `class.text`
fn on_class(alloc: Global, class: &str, text: &str) -> Result<String, AllocError>
    ensures { IfOk result (λ s. string_bytes s
        ≡ front_text (Respellings.by_class class.now) ++ text.now) }
{
    format!(in alloc; "{class}.{text}")
}

/// `outer.class.text`
fn on_outer_class(alloc: Global, outer: &str, class: &str, text: &str) -> Result<String, AllocError>
    ensures { IfOk result (λ s. string_bytes s
        ≡ front_text (Respellings.by_outer_class outer.now class.now) ++ text.now) }
{
    format!(in alloc; "{outer}.{class}.{text}")
}

/// What stands directly in front of the word, and the word.
pub fn front_and_word(alloc: Global, to: &Respelling) -> Result<String, AllocError>
    ensures { IfOk result (λ s. string_bytes s
        ≡ front_text (respelling_view to.now).front ++ (respelling_view to.now).text) }
{
    let text = to.text;
    match to.front {
        Front::Same => String::from_str(alloc, text),
        Front::Alone => String::from_str(alloc, text),
        Front::ByThis => format!(in alloc; "this.{text}"),
        Front::BySuper => format!(in alloc; "super.{text}"),
        Front::ByCastThis(class) => on_cast_this(alloc, class, text),
        Front::ByClass(class) => on_class(alloc, class, text),
        Front::ByOuterClass(outer, class) => on_outer_class(alloc, outer, class, text),
        Front::ByCast(_) => format!(in alloc; ").{text}"),
    }
}
